// A line's memory: emptied, filled and read.
ghost use Rattle.std.specs.Prelude.{◌≡◌, ℕ, List, [], ◌++◌, ◌<◌, length, MatchOption};
ghost use Rattle.script.specs.Sources.{Buffered, without_return};

use super::buffer::LineBuffer;

impl LineBuffer {
    // An empty line.
    pub fn new() -> LineBuffer
        ensures { Buffered result [] }
    {
        LineBuffer {
            bytes: [0; 4096],
            len: Some(0),
        }
    }

    // Makes the line empty.
    pub fn clear(&mut self)
        ensures { Buffered self.new [] }
    {
        self.len = Some(0);
    }

    // More bytes of the line.
    pub fn add(&mut self, bytes: &[u8])
        ensures { (bs : List ℕ) → Buffered self.old bs → Buffered self.new (bs ++ bytes.now) }
    {
        let Some(len) = self.len else {
            return;
        };
        if bytes.len() > 4096 - len {
            self.len = None;
            return;
        }
        let end = len + bytes.len();
        self.bytes[len..end].copy_from_slice(bytes);
        self.len = Some(end);
    }

    // The line, without a carriage return at its end; nothing if it is too long.
    pub fn text(&self) -> Option<&[u8]>
        ensures { (bs : List ℕ) → Buffered self.now bs → MatchOption result (4096 < length bs) (λ t. t.now ≡ without_return bs) }
    {
        Some(without_return(&self.bytes[..self.len?]))
    }
}

#[tactic(auto, using(crate::proofs::Ended::without_last, crate::proofs::Ended::without_other))]
fn without_return(line: &[u8]) -> &[u8]
    ensures { result.now ≡ without_return line.now }
{
    match line {
        [front @ .., last] if *last == b'\r' => front,
        _ => line,
    }
}
