// Where lines come from: a text in memory, or a stream.
ghost use Rattle.std.specs.Prelude.{◌≡◌, ℕ, ◌<◌, ◌≤◌, [], ◌==◌, length, true, false, MatchBool, MatchResult, IfSome};
ghost use Rattle.std.specs.List.{position};
ghost use Rattle.std.specs.IoError.{error_kind};
ghost use Rattle.std.specs.declared.io.ErrorKind.TheVariants.{UnexpectedEof};
ghost use Rattle.script.specs.Sources.{Buffered, after_line, first_line};

use super::buffer::LineBuffer;
use super::stream_end::ended;
use std::io;
use std::io::{ErrorKind, Read};

// Where the first newline stands, if there is one.
fn newline(text: &[u8]) -> Option<usize>
    ensures value { result ≡ position (λ b. b == 10) text.now }
    ensures within { IfSome result (λ n. n < length text.now) }
{
    text.iter().position(|b| *b == b'\n')
}

// The bytes before the first newline, and what stands after it.
fn split_line(text: &[u8]) -> (&[u8], &[u8])
    ensures front { result.0.now ≡ first_line text.now }
    ensures rest { result.1.now ≡ after_line text.now }
{
    match newline(text) {
        Some(n) => (&text[..n], &text[n + 1..]),
        None => (text, &[]),
    }
}

pub trait Lines {
    // Reads the next line; false if there is none. A stream has no memory for a whole line: the line is read into the caller's.
    fn next_line(&mut self, line: &mut LineBuffer) -> bool;
}

// The lines of a text. The last one may lack its newline.
#[derive(Clone, Copy, Debug)]
pub struct SliceLines<'a> {
    pub rest: &'a [u8],
}

impl Lines for SliceLines<'_> {
    fn next_line(&mut self, line: &mut LineBuffer) -> bool
        ensures { MatchBool result (Buffered line.new (first_line self.old.rest.now) × (self.new.rest.now ≡ after_line self.old.rest.now) × (length self.new.rest.now < length self.old.rest.now)) (self.old.rest.now ≡ []) }
    {
        if self.rest.is_empty() {
            return false;
        }
        let (front, rest) = split_line(self.rest);
        line.clear();
        line.add(front);
        self.rest = rest;
        true
    }
}

// The lines of a stream, which is read in pieces. `failed` says that it could not be read to its end: `next_line` has no error to give.
// What is left of a piece lies from `at` up to `end`: a range would have to be taken apart to be used twice, a vector can't be read into, and a `BufReader` needs a heap.
#[derive(Drop)]
pub struct StreamLines<'a, R> {
    input: &'a mut R,
    piece: [u8; 4096],
    at: usize,
    end: usize,
    failed: bool,
    ghost within: { (at ≤ end) × (end ≤ 4096) },
    ghost long: { length piece ≡ 4096 },
}

impl<'a, R: Read> StreamLines<'a, R> {
    pub fn new(input: &'a mut R) -> StreamLines<'a, R> {
        StreamLines {
            input,
            piece: [0; 4096],
            at: 0,
            end: 0,
            failed: false,
        }
    }

    // Whether the stream could not be read to its end.
    pub fn failed(&self) -> bool
        ensures { result ≡ self.now.failed }
    {
        self.failed
    }

    // An error where the stream could not be read to its end.
    pub fn end(&self) -> io::Result<()>
        ensures { MatchResult result (λ _. self.now.failed ≡ false) (λ e. (self.now.failed ≡ true) × (error_kind e ≡ UnexpectedEof)) }
    {
        ended(self.failed, ErrorKind::UnexpectedEof)
    }

    // Whether there is more: in the piece, or a new one is read.
    fn has_more(&mut self) -> bool
        ensures { MatchBool result (self.new.at < self.new.end) (Unit {0}) }
    {
        if self.at < self.end {
            return true;
        }
        if self.failed {
            return false;
        }
        // A loop has to end, and an input may be of any length: loops over one count up to `u64::MAX`.
        for _ in 0..u64::MAX {
            match self.input.read(&mut self.piece) {
                Ok(n) => {
                    self.at = 0;
                    self.end = n;
                    return n > 0;
                }
                Err(e) if e.kind() == ErrorKind::Interrupted => {}
                Err(_) => break,
            }
        }
        self.failed = true;
        false
    }
}

impl<R: Read> Lines for StreamLines<'_, R> {
    fn next_line(&mut self, line: &mut LineBuffer) -> bool {
        line.clear();
        let mut begun = false;
        for _ in 0..u64::MAX {
            if !self.has_more() {
                break;
            }
            begun = true;
            let piece = &self.piece[self.at..self.end];
            let Some(n) = newline(piece) else {
                line.add(piece);
                self.at = self.end;
                continue;
            };
            line.add(&piece[..n]);
            self.at += n + 1;
            return true;
        }
        begun && !self.failed
    }
}
