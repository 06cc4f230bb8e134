// Whole lines, put one after another.
ghost use Rattle.std.specs.Prelude.{◌≡◌, ℕ, List, [], ◌∷◌, ◌++◌, IfSome, OnOk};
ghost use Rattle.script.specs.Events.{printed, spaced};

use super::event::{Event, Say, Spaced};
use arrayvec::ArrayString;
use std::fmt;
use std::fmt::Write;

pub(crate) trait Sink {
    // Relates what was put before, a line, and what was put then. Where the line was lost, any line will do.
    ghost puts: { Self → List ℕ → Self → Type 0 };

    // All of a line, or nothing.
    fn put(&mut self, line: &[u8])
        ensures { puts self.old line.now self.new };

    // A line is lost.
    fn lose(&mut self)
        ensures { (line : List ℕ) → puts self.old line self.new };
}

// A value on a line of its own, which has room for the levels of 64 parts.
fn put_line<S: Sink, D: fmt::Display + Drop>(sink: &mut S, value: D)
    ensures { IfSome (D.output value) (λ text. S.puts sink.old (text ++ 10 ∷ []) sink.new) }
{
    let mut line = ArrayString::<256>::new();
    match write_line(&mut line, value) {
        Ok(()) => sink.put(line.as_str().as_bytes()),
        Err(_) => sink.lose(),
    }
}

// A value and the end of its line, behind what the line has. (The library's `writeln` would copy that one byte as a text of any length.)
fn write_line<D: fmt::Display + Drop>(line: &mut ArrayString<256>, value: D) -> fmt::Result
    ensures { IfSome (D.output value) (λ text. OnOk result (line.new.bytes ≡ line.old.bytes ++ (text ++ 10 ∷ []))) }
{
    line.write(value)?;
    line.write_str("\n")
}

impl<S: Sink> Say for S {
    fn say(&mut self, event: Event)
        ensures { S.puts self.old (printed event ++ 10 ∷ []) self.new }
    {
        put_line(self, event);
    }

    fn say_levels(&mut self, levels: &[u32])
        ensures { S.puts self.old (spaced levels.now ++ 10 ∷ []) self.new }
    {
        put_line(self, Spaced(levels));
    }
}
