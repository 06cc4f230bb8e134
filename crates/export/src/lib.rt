// What Rust and C call: plans and scripts as text, and what comes of them in lent memory.
#![tactic(auto)]

pub mod plan;

ghost use Rattle.std.specs.Prelude.{◌≤◌};

use play::play::play;
use script::lines::SliceLines;
use script::sheet::Sheet;

// There was no room for all that is to be written. A number, since C is told one.
pub const NO_ROOM: u64 = u64::MAX;

// Plays plans and scripts, and writes what `buoy` would print: how many bytes, or `NO_ROOM`.
#[unsafe(no_mangle)]
pub extern "C" fn tizgulk_play(input: &[u8], out: &mut [u8]) -> u64 {
    let mut lines = SliceLines { rest: input };
    let mut sheet = Sheet::new(out);
    play(&mut lines, &mut sheet);
    sheet.finish().map_or(NO_ROOM, |len| len as u64)
}
