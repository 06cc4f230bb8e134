// The lines of an input, one after another, with their numbers.
ghost use Rattle.std.specs.Prelude.{◌≡◌, ℕ, List, Some};
ghost use Rattle.script.specs.Sources.{Buffered};
ghost use Rattle.play.specs.Inputs.{number_after, text_of, Says, Reads};
ghost use Rattle.play.specs.declared.reader.Unclear.TheVariants as unclear;

use script::buffer::LineBuffer;
use script::line::{Line, NoLine};
use script::lines::Lines;
use script::read::read_line;
use std::error::Error;
use std::fmt;

// No input has more lines: one may be of any length, but a loop has to end.
pub(crate) const MOST_LINES: u64 = u64::MAX;

// Why what comes next is no line.
#[derive(Clone, Copy, Debug, PartialEq, Eq)]
pub enum Unclear {
    // longer than 4096 bytes
    TooLong,
    NoLine(NoLine),
}

impl From<NoLine> for Unclear {
    ghost from_gives = { λ e r. r ≡ unclear.NoLine e };

    fn from(e: NoLine) -> Unclear {
        Self::NoLine(e)
    }
}

impl fmt::Display for Unclear {
    ghost output = { λ e. Some (text_of e) };

    fn fmt<W: fmt::Write>(&self, f: &mut fmt::Formatter<W>) -> fmt::Result {
        match self {
            Unclear::TooLong => f.write_str("too long"),
            Unclear::NoLine(e) => e.fmt(f),
        }
    }
}

impl Error for Unclear {}

// Room for a line, and how many were read.
#[derive(Drop)]
pub struct Reader {
    line: LineBuffer,
    number: u64,
}

impl Reader {
    pub fn new() -> Reader
        ensures { result.number ≡ 0 }
    {
        Reader {
            line: LineBuffer::new(),
            number: 0,
        }
    }

    // The next of these lines, if there is one.
    pub fn next<L: Lines>(&mut self, lines: &mut L) -> Option<Result<Line, Unclear>>
        ensures counts { self.new.number ≡ number_after result self.old.number }
        ensures reads { (bs : List ℕ) → Buffered self.new.line bs → Reads bs result }
    {
        if !lines.next_line(&mut self.line) {
            return None;
        }
        self.number = self.number.saturating_add(1);
        Some(self.says())
    }

    // What the last line says.
    #[inline(always)]
    fn says(&self) -> Result<Line, Unclear>
        ensures { (bs : List ℕ) → Buffered self.now.line bs → Says bs result }
    {
        let text = self.line.text().ok_or(Unclear::TooLong)?;
        Ok(read_line(text)?)
    }

    // The number of the last line, from 1.
    pub fn number(&self) -> u64
        ensures { result ≡ self.now.number }
    {
        self.number
    }
}
