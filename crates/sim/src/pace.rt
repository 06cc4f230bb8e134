// Parts that rise slowly or never.
ghost use Rattle.std.specs.Prelude.{◌≡◌, ℕ, ◌<◌, Some, None};
ghost use Rattle.power.specs.Board.{put};
ghost use Rattle.sim.specs.Boards.{board_of};
ghost use Rattle.sim.specs.Paces.{ready, waited, pace_of, next_pace_of, GoodAtTheNth};

use super::state::{Sim, SimPart};

// Is a part at this pace good when it's asked now?
pub(crate) fn is_ready(pace: Option<u32>) -> bool
    ensures { result ≡ ready pace }
{
    pace.is_some_and(|n| n <= 1)
}

// The pace of a part that was asked and wasn't good.
pub(crate) fn after_asking(pace: Option<u32>) -> Option<u32>
    ensures { result ≡ waited pace }
{
    pace.map(|n| n.saturating_sub(1))
}

// What the pace `Some(n)` means.
pub fn good_at_the_nth() -> u8
    ensures { GoodAtTheNth }
{
    0
}

impl Sim {
    // From part x's next raising on it's good when it's asked the nth time.
    pub fn slow(&mut self, x: u32, n: u32)
        requires part { x < (board_of self.old).parts }
        ensures same { board_of self.new ≡ board_of self.old }
        ensures now { (z : ℕ) → pace_of self.new z ≡ pace_of self.old z }
        ensures next { (z : ℕ) → next_pace_of self.new z ≡ put x (Some n) (next_pace_of self.old) z }
    {
        let part = self.parts[x as usize];
        self.parts[x as usize] = SimPart {
            next_pace: Some(n),
            ..part
        };
    }

    // From now on part x isn't good when it's asked.
    pub fn bad(&mut self, x: u32)
        requires part { x < (board_of self.old).parts }
        ensures same { board_of self.new ≡ board_of self.old }
        ensures now { (z : ℕ) → pace_of self.new z ≡ put x None (pace_of self.old) z }
        ensures next { (z : ℕ) → next_pace_of self.new z ≡ put x None (next_pace_of self.old) z }
    {
        let part = self.parts[x as usize];
        self.parts[x as usize] = SimPart {
            pace: None,
            next_pace: None,
            ..part
        };
    }
}
