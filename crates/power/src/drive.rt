// The board and its driver, which go together while the board is asked anything.
ghost use Rattle.std.specs.Prelude.{◌≤◌};
ghost use Rattle.std.proofs.Props.{props};
ghost use Rattle.power.specs.Mirrors.{Knows, tried_is_prop};
ghost use Rattle.power.specs.Sound.{Sound};

use crate::Parts;
use crate::state::Driver;

// Each method leaves the two as it found them, but for what it asked of the board, and what is known of that. It says by a clause that it has
// not exchanged them (`same`), since whoever lent them could not tell otherwise what has become of them; no type says that.
#[derive(Drop)]
pub(crate) struct Drive<'a, P: Parts> {
    pub(crate) board: &'a mut P,
    pub(crate) driver: &'a mut Driver,
    ghost few: { (P.board board.now).parts ≤ 64 },
    ghost sound: { Sound (P.board board.now) } by { Prim.hlevel props },
    ghost knows: { Knows driver.now (P.board board.now) } by { Prim.hlevel (props, tried_is_prop) },
}
