// Why a user is told no, and the numbers of that.
ghost use Rattle.std.specs.Prelude.{◌≡◌, Some};
ghost use Rattle.power.specs.Board.{is_six};
ghost use Rattle.power.specs.NotDone.{told_number, told_text};
ghost use Rattle.power.specs.declared.not_done.NotDone.TheVariants as not_done;

use crate::Answer;
use crate::types::CantBe;
use std::error::Error;
use std::fmt;

// It can't be, with what others were granted; or a part that's needed doesn't get good.
#[derive(Clone, Copy, Debug, PartialEq, Eq)]
pub enum NotDone {
    CantBe,
    NotGood,
}

// the number that a user is told
impl From<NotDone> for u32 {
    ghost from_gives = { λ e n. n ≡ told_number e };

    fn from(e: NotDone) -> u32 {
        match e {
            NotDone::CantBe => 5,
            NotDone::NotGood => 6,
        }
    }
}

impl From<CantBe> for NotDone {
    ghost from_gives = { λ _ e. e ≡ not_done.CantBe };

    fn from(_e: CantBe) -> NotDone {
        Self::CantBe
    }
}

impl fmt::Display for NotDone {
    ghost output = { λ e. Some (told_text e) };

    fn fmt<W: fmt::Write>(&self, f: &mut fmt::Formatter<W>) -> fmt::Result {
        f.write_str(match self {
            NotDone::CantBe => "it can't be, with what others were granted",
            NotDone::NotGood => "a part that's needed doesn't get good",
        })
    }
}

impl Error for NotDone {}

// Is it the no for a part that doesn't get good?
pub fn is_not_good(a: Answer) -> bool
    ensures { result ≡ is_six a }
{
    match a {
        Answer::Done => false,
        Answer::No(k) => k == u32::from(NotDone::NotGood),
    }
}
