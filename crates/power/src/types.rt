// Parts, levels and users, each a number with its bound, and a level for each part.
ghost use Rattle.std.specs.Prelude.{◌≡◌, ◌<◌, ◌≤◌, length, Some, codes, MatchResult};

use std::error::Error;
use std::fmt;

// A part's number: a board has at most 64 parts.
#[derive(Clone, Copy, Debug, PartialEq, Eq, PartialOrd, Ord)]
pub struct PartId {
    pub n: u32,
    ghost below: { n < 64 },
}

// The level of a part that is on: 1 to 15.
#[derive(Clone, Copy, Debug, PartialEq, Eq, PartialOrd, Ord)]
pub struct Level {
    pub n: u32,
    ghost on: { 1 ≤ n },
    ghost top: { n ≤ 15 },
}

impl Level {
    // the highest
    pub const TOP: u32 = 15;
}

// A user's number: there are 32. Were the two bounds ever alike, one type with a const parameter would make a user a part.
#[derive(Clone, Copy, Debug, PartialEq, Eq, PartialOrd, Ord)]
pub struct UserId {
    pub n: u32,
    ghost below: { n < 32 },
}

// A number that is no part's, no level's or no user's.
#[derive(Clone, Copy, Debug, PartialEq, Eq)]
pub struct OutOfRange;

impl TryFrom<u32> for PartId {
    type Error = OutOfRange;

    ghost try_from_gives = { λ n r. MatchResult r (λ x. x.n ≡ n) (λ _. 64 ≤ n) };

    fn try_from(n: u32) -> Result<PartId, OutOfRange> {
        if n < 64 {
            Ok(PartId { n })
        } else {
            Err(OutOfRange)
        }
    }
}

impl TryFrom<u32> for Level {
    type Error = OutOfRange;

    ghost try_from_gives = { λ n r. MatchResult r (λ l. l.n ≡ n) (λ _. 1 ≤ n → 15 < n) };

    fn try_from(n: u32) -> Result<Level, OutOfRange> {
        if (1..=Level::TOP).contains(&n) {
            Ok(Level { n })
        } else {
            Err(OutOfRange)
        }
    }
}

impl TryFrom<u32> for UserId {
    type Error = OutOfRange;

    ghost try_from_gives = { λ n r. MatchResult r (λ u. u.n ≡ n) (λ _. 32 ≤ n) };

    fn try_from(n: u32) -> Result<UserId, OutOfRange> {
        if n < 32 {
            Ok(UserId { n })
        } else {
            Err(OutOfRange)
        }
    }
}

impl fmt::Display for OutOfRange {
    ghost output = { λ _. Some (codes "no such user, part or level") };

    fn fmt<W: fmt::Write>(&self, f: &mut fmt::Formatter<W>) -> fmt::Result {
        f.write_str("no such user, part or level")
    }
}

impl Error for OutOfRange {}

// A level for each part, 0 where the part is off. No `Option<Level>`: what is wanted, or needed for it, may be above 15 until it's refused.
// States and wants have tables like this one; one for all would need a trait of keys and an empty value, for two methods of a line each.
#[derive(Drop)]
pub struct Levels {
    pub of: [u32; 64],
    ghost long: { length of ≡ 64 },
}

// Levels to aim at: no part higher than the ceiling, none lower than the goal.
#[derive(Drop)]
pub struct Aims {
    pub ceiling: Levels,
    pub goal: Levels,
}

// What is wanted can't be: a level above 15, or above what a part that needs it allows, or more drawn than is given.
#[derive(Clone, Copy, Debug, PartialEq, Eq)]
pub struct CantBe;

impl fmt::Display for CantBe {
    ghost output = { λ _. Some (codes "what is wanted can't be") };

    fn fmt<W: fmt::Write>(&self, f: &mut fmt::Formatter<W>) -> fmt::Result {
        f.write_str("what is wanted can't be")
    }
}

impl Error for CantBe {}
