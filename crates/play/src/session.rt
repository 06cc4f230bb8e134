// An input, and whoever is told what comes of it.
// The methods that only tell say that no line was read meanwhile: whoever holds the session can't know it otherwise.
ghost use Rattle.std.specs.Prelude.{◌≡◌};
ghost use Rattle.play.specs.Inputs.{number_after};

use super::reader::{Reader, Unclear};
use script::event::{Event, Say};
use script::line::Line;
use script::lines::Lines;

#[derive(Drop)]
pub struct Session<'a, 'b, L, S> {
    pub lines: &'a mut L,
    pub reader: Reader,
    pub out: &'b mut S,
}

impl<'a, 'b, L: Lines, S: Say> Session<'a, 'b, L, S> {
    // No line was read yet.
    pub fn new(lines: &'a mut L, out: &'b mut S) -> Session<'a, 'b, L, S>
        ensures number { result.reader.number ≡ 0 }
        ensures lines { (result.lines.ghost_name ≡ lines.entry.ghost_name) × (result.lines.now ≡ lines.old) }
        ensures out { (result.out.ghost_name ≡ out.entry.ghost_name) × (result.out.now ≡ out.old) }
    {
        Session {
            lines,
            reader: Reader::new(),
            out,
        }
    }

    // The next line, if there is one.
    #[inline(always)]
    pub(crate) fn next(&mut self) -> Option<Result<Line, Unclear>>
        ensures { self.new.reader.number ≡ number_after result self.old.reader.number }
    {
        self.reader.next(self.lines)
    }

    // Tells that the last line is none that can stand where it does.
    pub(crate) fn unclear(&mut self)
        ensures { self.new.reader.number ≡ self.old.reader.number }
    {
        let number = self.reader.number();
        self.out.say(Event::NoLine(number));
    }

    pub(crate) fn say(&mut self, event: Event)
        ensures { self.new.reader.number ≡ self.old.reader.number }
    {
        self.out.say(event);
    }

    pub(crate) fn say_levels(&mut self, levels: &[u32])
        ensures { self.new.reader.number ≡ self.old.reader.number }
    {
        self.out.say_levels(levels);
    }
}
