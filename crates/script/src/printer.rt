// What is told, printed: through a buffer, so that a line costs no system call.
ghost use Rattle.std.specs.Prelude.{◌≡◌, true, false, [], MatchBool, MatchResult};
ghost use Rattle.std.specs.IoError.{error_kind};
ghost use Rattle.std.specs.declared.io.ErrorKind.TheVariants.{BrokenPipe};
ghost use Rattle.script.specs.Sheets.{Waits};

use super::sink::Sink;
use super::stream_end::ended;
use arrayvec::ArrayVec;
use std::io;
use std::io::{ErrorKind, Write};

// `failed` says that something could not be printed; nothing is printed after that. The traits that print have no error to give.
#[derive(Drop)]
pub struct Printer<'a, W> {
    out: &'a mut W,
    buffer: ArrayVec<u8, 4096>,
    failed: bool,
}

impl<'a, W: Write> Printer<'a, W> {
    pub fn new(out: &'a mut W) -> Printer<'a, W> {
        Printer {
            out,
            buffer: ArrayVec::new(),
            failed: false,
        }
    }

    // Whether something could not be printed. (`StreamLines` reads such a field too: there is no more to share.)
    pub fn failed(&self) -> bool
        ensures { result ≡ self.now.failed }
    {
        self.failed
    }

    // An error where something could not be printed.
    pub fn end(&self) -> io::Result<()>
        ensures { MatchResult result (λ _. self.now.failed ≡ false) (λ e. (self.now.failed ≡ true) × (error_kind e ≡ BrokenPipe)) }
    {
        ended(self.failed, ErrorKind::BrokenPipe)
    }

    // Prints what waits in the buffer.
    pub fn flush(&mut self)
        ensures { self.new.buffer.items ≡ [] }
    {
        if !self.failed {
            self.failed = write_whole(self.out, self.buffer.as_slice()).is_err();
        }
        self.buffer.clear();
    }
}

// Writes the bytes, up to their end.
fn write_whole<W: Write>(out: &mut W, bytes: &[u8]) -> io::Result<()> {
    out.write_all(bytes)?;
    out.flush()
}

impl<W: Write> Sink for Printer<'_, W> {
    ghost puts = { λ was bytes is. MatchBool is.failed (Unit {0}) (Waits was.buffer.items bytes is.buffer.items) };

    // The bytes wait behind what waits already; that is printed first where there is no room for them.
    fn put(&mut self, bytes: &[u8]) {
        if self.buffer.remaining_capacity() < bytes.len() {
            self.flush();
        }
        if self.buffer.try_extend_from_slice(bytes).is_err() {
            self.failed = true;
        }
    }

    fn lose(&mut self) {
        self.failed = true;
    }
}
