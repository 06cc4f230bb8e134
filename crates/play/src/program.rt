// An input stream played to its end, and what happens written to an output stream.
use super::play::play;
use script::lines::StreamLines;
use script::printer::Printer;
use std::io;
use std::io::{Read, Write};

// An error where the input could not be read to its end, or the output not be written.
pub fn run<R: Read, W: Write>(input: &mut R, output: &mut W) -> io::Result<()> {
    let mut lines = StreamLines::new(input);
    let mut out = Printer::new(output);
    play(&mut lines, &mut out);
    out.flush();
    lines.end()?;
    out.end()
}
