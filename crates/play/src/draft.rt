// A plan as its lines come.
ghost use Rattle.std.specs.Prelude.{◌≡◌, None};
ghost use Rattle.play.specs.Drafts.{Begun, Drafted, Added, Heeded};

use script::line::Line;
use sim::plan::{Plan, PlanPart};
use sim::state::Sim;

// The parts so far; `None` where no plan can hold what was written.
#[derive(Drop)]
pub struct Draft {
    plan: Option<Plan>,
}

// What a line of a plan comes to: more of them, or the plan is whole.
#[derive(Clone, Copy, Debug, PartialEq, Eq)]
pub enum Step {
    More,
    Whole,
}

impl Draft {
    // No part yet.
    pub fn new() -> Draft
        ensures { Begun result.plan }
    {
        Draft {
            plan: Some(Plan::none()),
        }
    }

    // Part x comes next, if parts come in their order and are no more than 64.
    pub fn add(&mut self, x: u32, part: PlanPart)
        ensures { Added x part self.old.plan self.new.plan }
    {
        let Some(plan) = &mut self.plan else {
            return;
        };
        if x != plan.parts || plan.add(part).is_err() {
            self.spoil();
        }
    }

    // No plan can hold what was written.
    pub fn spoil(&mut self)
        ensures { self.new.plan ≡ None }
    {
        self.plan = None;
    }

    // The board, if the plan isn't spoilt and makes sense.
    pub fn board(&self) -> Option<Sim>
        ensures { Drafted self.now.plan result }
    {
        Sim::new(self.plan?).ok()
    }

    // Heeds a line of the plan; `None` where it is no line of a plan.
    pub fn heed(&mut self, line: Line) -> Option<Step>
        ensures { Heeded line result self.old.plan self.new.plan }
    {
        match line {
            Line::Part(x, part) => self.add(x, part),
            Line::Unfit(_) => self.spoil(),
            Line::Gives(n) => {
                if let Some(plan) = &mut self.plan {
                    plan.set_gives(n);
                }
            }
            Line::New => *self = Draft::new(),
            Line::Run => return Some(Step::Whole),
            _ => return None,
        }
        Some(Step::More)
    }
}
