// A board in memory is made from a plan that makes sense.
ghost use Rattle.std.specs.Prelude.{◌≡◌};
ghost use Rattle.sim.specs.Boards.{board_of};
ghost use Rattle.sim.specs.Starts.{Started};

use super::plan::{Plan, PlanFault};
use super::state::{Sim, SimPart};
use power::ASKINGS;
use power::state::{PartState, Wanted};

// A part that is off, and good when it's first asked.
const AT_FIRST: SimPart = SimPart {
    state: PartState::Off,
    tried: 0,
    pace: Some(1),
    next_pace: Some(1),
};

impl Sim {
    // All is off, nobody wants anything, and every part is good when it's first asked.
    pub fn new(plan: Plan) -> Result<Sim, PlanFault>
        ensures { Started plan result }
    {
        if !plan.makes_sense() {
            return Err(PlanFault::Senseless);
        }
        Ok(Sim {
            plan,
            parts: [AT_FIRST; 64],
            wishes: [Wanted::Nothing; 32],
            quiet: 0,
            left: ASKINGS,
        })
    }
}
