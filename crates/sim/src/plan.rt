// A plan as it is written down: what each part needs and draws, and what the board gives. Whether it makes sense is another matter.
ghost use Rattle.std.specs.Prelude.{◌≡◌, ◌≤◌, length, Some};
ghost use Rattle.sim.specs.Faults.{text_of};

use std::error::Error;
use std::fmt;

// Part `on` is needed: at level l at least at `least[l]`, and at most at `most`.
#[derive(Clone, Copy, Debug, PartialEq, Eq)]
pub struct PlanNeed {
    pub on: u32,
    pub least: [u32; 16],
    pub most: u32,
    ghost long: { length least ≡ 16 },
}

// What one part needs: the first `count` of these; and what it draws at level l: `draw[l]`.
// An array and a count, here and in a plan: both are copied as they are. The kit's vector of a fixed room isn't `Copy`, and its `clone` can fail.
#[derive(Clone, Copy, Debug, PartialEq, Eq)]
pub struct PlanPart {
    pub count: u32,
    pub needs: [PlanNeed; 4],
    pub draw: [u32; 16],
    ghost few: { count ≤ 4 },
    ghost long: { length needs ≡ 4 },
    ghost levels: { length draw ≡ 16 },
}

// The first `parts` of these, and what all of them may draw together.
#[derive(Clone, Copy, Debug, PartialEq, Eq)]
pub struct Plan {
    pub parts: u32,
    pub part: [PlanPart; 64],
    pub gives: u32,
    ghost few: { parts ≤ 64 },
    ghost long: { length part ≡ 64 },
}

// Why a plan is refused.
#[derive(Clone, Copy, Debug, PartialEq, Eq)]
pub enum PlanFault {
    // a 65th part
    TooManyParts,
    // a part's fifth need
    TooManyNeeds,
    // needs that go to no smaller number or to one part twice; levels that fall, or are 0 at 1; a most above 15;
    // draws that fall, or are not 0 at 0
    Senseless,
}

impl fmt::Display for PlanFault {
    ghost output = { λ e. Some (text_of e) };

    fn fmt<W: fmt::Write>(&self, f: &mut fmt::Formatter<W>) -> fmt::Result {
        f.write_str(match self {
            PlanFault::TooManyParts => "the plan has more than 64 parts",
            PlanFault::TooManyNeeds => "a part has more than four needs",
            PlanFault::Senseless => "the plan makes no sense",
        })
    }
}

impl Error for PlanFault {}
