// What users of a board in memory were granted, and the least levels for that.
ghost use Rattle.std.specs.Prelude.{◌≡◌, ℕ};
ghost use Rattle.power.specs.Board.{granted};
ghost use Rattle.power.specs.Found.{Finds};
ghost use Rattle.power.specs.Tables.{at};
ghost use Rattle.sim.specs.Boards.{board_of};

use super::state::Sim;
use power::least::least;
use power::types::{CantBe, Levels};

impl Sim {
    // The level at which each part was granted, 0 where it wasn't.
    pub fn granted(&self) -> Levels
        ensures { (x : ℕ) → at result x ≡ granted (board_of self.now) x }
    {
        Levels::granted(&self.wishes)
    }

    // The least levels for what is granted.
    pub fn least_granted(&self) -> Result<Levels, CantBe>
        ensures { Finds (board_of self.now) (granted (board_of self.now)) result }
    {
        least(self, &self.granted())
    }
}
