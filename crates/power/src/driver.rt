// The driver between ticks: made anew, after a telling, after a tick.
ghost use Rattle.std.specs.Prelude.{ℕ};
ghost use Rattle.power.specs.Board.{Board, AtStart, told, ticked};
ghost use Rattle.power.specs.Mirrors.{Knows};

use crate::Answer;
use crate::not_done::is_not_good;
use crate::state::{Driver, Mirror};

// How often the board may be asked in a tick.
pub const ASKINGS: u32 = 1024;

impl Driver {
    pub(crate) fn new() -> Driver
        ensures { (b : Board) → AtStart b → Knows result b }
    {
        Driver {
            mirror: Mirror::new(),
            left: 0,
        }
    }

    // Somebody was told; after a 6 each part that rises is tried anew.
    pub(crate) fn answered(&mut self, a: Answer)
        ensures { (b : Board) (u : ℕ) → Knows self.old b → Knows self.new (told u a b) }
    {
        if is_not_good(a) {
            self.mirror.anew();
        }
    }

    // The tick's askings are over.
    pub(crate) fn rest(&mut self)
        ensures { (b : Board) → Knows self.old b → Knows self.new (ticked b) }
    {
        self.left = 0;
    }
}
