// Whether a plan makes sense.
ghost use Rattle.std.specs.Prelude.{◌≡◌, ◌<◌, not, ◌&&◌, length, map, ◌==◌, nat_le};
ghost use Rattle.std.specs.List.{list_all};
ghost use Rattle.power.specs.Board.{rising, good_need, good_draw, apart, all, good_plan};
ghost use Rattle.sim.specs.Plans.{need_of, needs_of, needs_at, draws_at, board_for, sense};

use super::plan::{Plan, PlanNeed, PlanPart};
use power::types::Level;

// No level needs less, or draws less, than one below it.
fn rises(least: &[u32; 16]) -> bool
    ensures { result ≡ rising least.now }
{
    least.is_sorted()
}

impl PlanNeed {
    // As a need of part x.
    fn makes_sense(&self, x: u32) -> bool
        ensures { result ≡ good_need x (need_of self.now) }
    {
        let up = rises(&self.least);
        self.on < x && up && self.least[0] == 0 && 1 <= self.least[1] && self.most <= Level::TOP
    }
}

fn needs_make_sense(x: u32, needs: &[PlanNeed]) -> bool
    ensures { result ≡ list_all (λ n. good_need x (need_of n)) needs.now }
{
    needs.iter().all(|need| need.makes_sense(x))
}

// None of these goes to the part that a need goes to.
fn is_new(need: &PlanNeed, others: &[PlanNeed]) -> bool
    ensures { result ≡ list_all (λ m. not (m.on == need.now.on)) others.now }
{
    others.iter().all(|other| other.on != need.on)
}

// Each goes to another part.
#[tactic(auto, using(crate::proofs::Sensible::apart_none, crate::proofs::Sensible::apart_more))]
fn are_apart(needs: &[PlanNeed]) -> bool
    ensures { result ≡ apart (map need_of needs.now) }
{
    match needs.split_first() {
        None => true,
        Some((first, others)) => is_new(first, others) && are_apart(others),
    }
}

impl PlanPart {
    fn needs_make_sense(&self, x: u32) -> bool
        ensures { result ≡ (all (good_need x) (needs_of self.now) && apart (needs_of self.now) && nat_le (length (needs_of self.now)) 4) }
    {
        let needs = self.needs();
        needs_make_sense(x, needs) && are_apart(needs)
    }

    fn draw_makes_sense(&self) -> bool
        ensures { result ≡ good_draw self.now.draw }
    {
        rises(&self.draw) && self.draw[0] == 0
    }

    // As part x.
    fn makes_sense(&self, x: u32) -> bool
        ensures { result ≡ sense x (needs_of self.now) self.now.draw }
    {
        self.needs_make_sense(x) && self.draw_makes_sense()
    }
}

impl Plan {
    fn part_makes_sense(&self, x: u32) -> bool
        requires { x < self.now.parts }
        ensures { result ≡ sense x (needs_at self.now.part x) (draws_at self.now.part x) }
    {
        self.part[x as usize].makes_sense(x)
    }

    pub fn makes_sense(&self) -> bool
        ensures { result ≡ good_plan (board_for self.now) }
    {
        (0..self.parts).all(|x| self.part_makes_sense(x))
    }
}
