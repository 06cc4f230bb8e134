// What is told of a run, how it is printed, and who is told.
ghost use Rattle.std.specs.Prelude.{Some};
ghost use Rattle.script.specs.Events.{printed, spaced};

use super::digits::write_number;
use std::fmt;

// Why a call is sent away, or a user told no, is the number that `World` gives: an enum would be made from it only to be printed as it.
#[derive(Clone, Copy, Debug, PartialEq, Eq)]
pub enum Event {
    Taken,
    // a call is sent away, and why
    Away(u32),
    Done(u32),
    // a user is told no, and why
    No(u32, u32),
    Raise(u32),
    Good(u32),
    Level(u32, u32),
    Lower(u32),
    // what all parts draw
    Drawn(u64),
    NoPlan,
    // which line of the input is none
    NoLine(u64),
}

// An event, without the end of its line.
impl fmt::Display for Event {
    ghost output = { λ e. Some (printed e) };

    fn fmt<W: fmt::Write>(&self, f: &mut fmt::Formatter<W>) -> fmt::Result {
        match *self {
            Event::Taken => f.write_str("taken"),
            Event::Away(why) => {
                f.write_str("away ")?;
                write_number(f, u64::from(why))
            }
            Event::Done(user) => {
                write_number(f, u64::from(user))?;
                f.write_str(" done")
            }
            Event::No(user, why) => {
                write_number(f, u64::from(user))?;
                f.write_str(" no ")?;
                write_number(f, u64::from(why))
            }
            Event::Raise(x) => {
                f.write_str("raise ")?;
                write_number(f, u64::from(x))
            }
            Event::Good(x) => {
                f.write_str("good ")?;
                write_number(f, u64::from(x))
            }
            Event::Level(x, level) => {
                f.write_str("level ")?;
                write_number(f, u64::from(x))?;
                f.write_str(" ")?;
                write_number(f, u64::from(level))
            }
            Event::Lower(x) => {
                f.write_str("lower ")?;
                write_number(f, u64::from(x))
            }
            Event::Drawn(sum) => write_number(f, sum),
            Event::NoPlan => f.write_str("no plan"),
            Event::NoLine(number) => {
                f.write_str("line ")?;
                write_number(f, number)?;
                f.write_str("?")
            }
        }
    }
}

// Levels, with single spaces between them.
#[derive(Clone, Copy)]
pub(crate) struct Spaced<'a>(pub(crate) &'a [u32]);

impl fmt::Display for Spaced<'_> {
    ghost output = { λ levels. Some (spaced levels.0.now) };

    fn fmt<W: fmt::Write>(&self, f: &mut fmt::Formatter<W>) -> fmt::Result {
        if let [first, rest @ ..] = self.0 {
            write_number(f, u64::from(*first))?;
            for level in rest {
                f.write_str(" ")?;
                write_number(f, u64::from(*level))?;
            }
        }
        Ok(())
    }
}

// Who is told, each time on a line of its own.
pub trait Say {
    fn say(&mut self, event: Event);

    // The levels with single spaces between them.
    fn say_levels(&mut self, levels: &[u32]);
}
