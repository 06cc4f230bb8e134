// What the keeper is. What it tells is told as numbers where the fixed text of its methods `call` and `work` says so.
ghost use Rattle.std.specs.Prelude.{◌<◌};
ghost use Rattle.std.proofs.Props.{props};
ghost use Rattle.power.specs.Rota.{NobodyWaits};

use crate::state::{Driver, Turn, Wishes};

// What the keeper knows, at most 65,536 bytes. While it's quiet nobody waits. That it knows a board (`Kept`) no type can say: it doesn't hold the board.
#[derive(Drop)]
pub struct Keeper {
    pub parts: u32,
    pub(crate) driver: Driver,
    pub(crate) wishes: Wishes,
    pub(crate) turn: Turn,
    // for how many ticks it has been quiet
    pub(crate) idle: u32,
    ghost calm: { 0 < idle → NobodyWaits wishes 0 32 } by { Prim.hlevel props },
}
