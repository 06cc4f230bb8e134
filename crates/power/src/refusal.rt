// Why a call is turned away, and the numbers of that.
ghost use Rattle.std.specs.Prelude.{◌≡◌, Some};
ghost use Rattle.power.specs.Refused.{code_of, text_of};
ghost use Rattle.power.specs.declared.refusal.Refusal.TheVariants.{NoSuch};

use crate::types::OutOfRange;
use std::error::Error;
use std::fmt;

// No such user, part or level; the user wants something already, or wants nothing.
#[derive(Clone, Copy, Debug, PartialEq, Eq)]
pub enum Refusal {
    NoSuch,
    Already,
    Nothing,
}

// the number by which a call is turned away
impl From<Refusal> for u32 {
    ghost from_gives = { λ r n. n ≡ code_of r };

    fn from(r: Refusal) -> u32 {
        match r {
            Refusal::NoSuch => 1,
            Refusal::Already => 2,
            Refusal::Nothing => 3,
        }
    }
}

impl From<OutOfRange> for Refusal {
    ghost from_gives = { λ _ r. r ≡ NoSuch };

    fn from(_e: OutOfRange) -> Self {
        Self::NoSuch
    }
}

impl fmt::Display for Refusal {
    ghost output = { λ r. Some (text_of r) };

    fn fmt<W: fmt::Write>(&self, f: &mut fmt::Formatter<W>) -> fmt::Result {
        f.write_str(match self {
            Refusal::NoSuch => "no such user, part or level",
            Refusal::Already => "the user wants something already",
            Refusal::Nothing => "the user wants nothing",
        })
    }
}

impl Error for Refusal {}
