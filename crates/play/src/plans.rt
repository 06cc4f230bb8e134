// A plan by itself, without a script.
ghost use Rattle.power.specs.Board.{AtStart};
ghost use Rattle.std.specs.Prelude.{IfSome};
ghost use Rattle.sim.specs.Boards.{board_of};

use super::draft::{Draft, Step};
use super::reader::{MOST_LINES, Reader};
use script::lines::Lines;
use sim::state::Sim;

// Unlike where a script follows, a line that is none ends it, and the text's end makes it whole.
// The board of a plan up to its `run` or to its end, if each line is one of a plan, and the plan makes sense.
pub fn read_board<L: Lines>(lines: &mut L) -> Option<Sim>
    ensures { IfSome result (λ s. AtStart (board_of s)) }
{
    let mut reader = Reader::new();
    let mut draft = Draft::new();
    for _ in 0..MOST_LINES {
        let Some(said) = reader.next(lines) else {
            return draft.board();
        };
        match draft.heed(said.ok()?)? {
            Step::More => {}
            Step::Whole => return draft.board(),
        }
    }
    None
}
