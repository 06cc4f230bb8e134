// What the keeper knows: of each part, of each user, whose turn it is, and how often it may still ask in this tick.
ghost use Rattle.std.specs.Prelude.{◌≡◌, ◌≤◌, length};

use crate::types::{Aims, Level, PartId, UserId};

// What a user asks for: a part, at a level.
#[derive(Clone, Copy, Debug, PartialEq, Eq)]
pub struct Request {
    pub part: PartId,
    pub level: Level,
}

// How often a rising part was found not to be good, up to 64.
#[derive(Clone, Copy, Debug, PartialEq, Eq)]
pub struct Tried {
    pub n: u32,
    ghost most: { n ≤ 64 },
}

// What a part is: off, rising, with what is known of that, or on at a level.
#[derive(Clone, Copy, Debug, PartialEq, Eq)]
pub enum PartState<T> {
    Off,
    Rising(T),
    On(Level),
}

// What a user wants: nothing; what they asked for, with what is known of how long ago; that, granted.
#[derive(Clone, Copy, Debug, PartialEq, Eq)]
pub enum Wanted<A> {
    Nothing,
    Asked(Request, A),
    Granted(Request),
}

// The state of each part, as far as the keeper knows: the board's own can't be read.
#[derive(Drop)]
pub struct Mirror {
    pub states: [PartState<Tried>; 64],
    ghost long: { length states ≡ 64 },
}

// What each user wants. How long ago it was asked is the board's, not the keeper's.
#[derive(Drop)]
pub struct Wishes {
    pub wanted: [Wanted<()>; 32],
    ghost long: { length wanted ≡ 32 },
}

// Drives the parts: it knows them, and has so many askings left in this tick.
#[derive(Drop)]
pub struct Driver {
    pub mirror: Mirror,
    pub left: u32,
}

// Whose turn it is; and while they are served, what is aimed at: made when the turn comes to their want, and kept until it's over.
#[derive(Drop)]
pub struct Turn {
    pub user: UserId,
    pub aims: Option<Aims>,
}

// No asking is left in this tick.
#[derive(Clone, Copy, Debug, PartialEq, Eq)]
pub(crate) struct Spent;

// Why a way ended before it was through: no asking is left in this tick, or a part was found not to be good 64 times.
#[derive(Clone, Copy, Debug, PartialEq, Eq)]
pub(crate) enum Halt {
    Spent,
    Stuck,
}

impl From<Spent> for Halt {
    ghost use Rattle.power.specs.declared.state.Halt.TheVariants.{Spent};

    ghost from_gives = { λ _ h. h ≡ Spent };

    fn from(_e: Spent) -> Halt {
        Halt::Spent
    }
}
