// What a board in memory holds.
ghost use Rattle.std.specs.Prelude.{◌≡◌, ◌≤◌, true, length};
ghost use Rattle.power.specs.Board.{good_plan};
ghost use Rattle.sim.specs.Plans.{board_for};

use super::plan::Plan;
use power::state::{PartState, Wanted};

// What a part is, and how often it was found not to be good. A rising part is found good when it's asked the nth time from now, or never, if None:
// `pace` is in effect since it was raised last, `next_pace` from its next raising on.
#[derive(Clone, Copy, Debug, PartialEq, Eq)]
pub struct SimPart {
    pub state: PartState<()>,
    pub tried: u32,
    pub pace: Option<u32>,
    pub next_pace: Option<u32>,
}

// The plan makes sense; it stays as it was checked, and what becomes of its parts stands beside it. Of a want that waits it's known how many ticks ago it was asked.
#[derive(Drop)]
pub struct Sim {
    pub plan: Plan,
    pub parts: [SimPart; 64],
    pub wishes: [Wanted<u32>; 32],
    pub quiet: u32,
    pub left: u32,
    ghost sensible: { good_plan (board_for plan) ≡ true },
    ghost sized: { (length parts ≡ 64) × (length wishes ≡ 32) },
}
