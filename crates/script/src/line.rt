// What a line says.
ghost use Rattle.std.specs.Prelude.{Some};
ghost use Rattle.script.specs.Lines.{reason};

use sim::plan::PlanPart;
use std::error::Error;
use std::fmt;

#[derive(Clone, Copy, Debug, PartialEq, Eq)]
pub enum Line {
    // a part, and what it draws and needs
    Part(u32, PlanPart),
    // a part whose needs or draws no plan can hold: a kind of its own, as what a line says is defined
    Unfit(u32),
    Run,
    New,
    // who, which part, at which level
    Want(u32, u32, u32),
    Give(u32),
    Tick(u32),
    Bad(u32),
    // which part, and at which asking it is good
    Slow(u32, u32),
    Least,
    // what the board gives
    Gives(u32),
    Drawn,
}

// Why a text is no line.
#[derive(Clone, Copy, Debug, PartialEq, Eq)]
pub enum NoLine {
    Empty,
    UnknownWord,
    MissingWord,
    NotANumber,
    ExtraWord,
    // `slow X 0`
    NeverAsked,
}

impl fmt::Display for NoLine {
    ghost output = { λ e. Some (reason e) };

    fn fmt<W: fmt::Write>(&self, f: &mut fmt::Formatter<W>) -> fmt::Result {
        f.write_str(match self {
            NoLine::Empty => "empty",
            NoLine::UnknownWord => "unknown word",
            NoLine::MissingWord => "missing word",
            NoLine::NotANumber => "not a number",
            NoLine::ExtraWord => "extra word",
            NoLine::NeverAsked => "never asked",
        })
    }
}

impl Error for NoLine {}
