// What is told, written into lent memory.
ghost use Rattle.std.specs.Prelude.{◌≡◌, ◌+◌, ◌≤◌, true, false, length, MatchResult};

use super::sink::Sink;
use arrayvec::CapacityError;

// The first `len` bytes are written. Where a line had no room, that and all that follow are left out: `len` counts what was written before.
// The memory is lent by C, and the length before a loss still counts whole lines: so a flag stands beside it.
#[derive(Drop)]
pub struct Sheet<'a> {
    text: &'a mut [u8],
    len: usize,
    full: bool,
    ghost within: { len ≤ length text.now },
}

impl<'a> Sheet<'a> {
    // An empty sheet.
    pub fn new(text: &'a mut [u8]) -> Sheet<'a>
        ensures { (result.len ≡ 0) × (result.full ≡ false) }
    {
        Sheet {
            text,
            len: 0,
            full: false,
        }
    }

    // How many bytes are written.
    pub fn len(&self) -> usize
        ensures { result ≡ self.now.len }
    {
        self.len
    }

    // Whether something had no room.
    pub fn is_full(&self) -> bool
        ensures { result ≡ self.now.full }
    {
        self.full
    }

    // How many bytes are written, or an error where something had no room.
    pub fn finish(self) -> Result<usize, CapacityError>
        ensures { MatchResult result (λ len. (self.entry.full ≡ false) × (len ≡ self.entry.len)) (λ _. self.entry.full ≡ true) }
    {
        if self.full {
            return Err(CapacityError::new(()));
        }
        Ok(self.len)
    }
}

impl Sink for Sheet<'_> {
    ghost use Rattle.script.specs.Sheets.{Added};

    ghost puts = { λ was bytes is. Added was is bytes };

    // Bytes at the end, all of them or none.
    fn put(&mut self, line: &[u8])
        ensures added { Added self.old self.new line.now }
        ensures full_after { self.old.full ≡ false → self.old.len + length line.now ≤ length self.old.text.now → self.new.full ≡ false }
    {
        if self.full || line.len() > self.text.len() - self.len {
            self.full = true;
            return;
        }
        let end = self.len + line.len();
        self.text[self.len..end].copy_from_slice(line);
        self.len = end;
    }

    fn lose(&mut self) {
        self.full = true;
    }
}
