// Plans at random, the same in every run.
ghost use Rattle.std.specs.Prelude.{◌<◌, ◌≤◌};

use sim::plan::{Plan, PlanNeed, PlanPart};

// A linear congruential generator.
#[derive(Drop)]
pub struct Random {
    pub state: u64,
}

impl Random {
    // A number below n.
    pub fn below(&mut self, n: u32) -> u32
        requires { 0 < n }
        ensures { result < n }
    {
        self.state = self
            .state
            .wrapping_mul(6364136223846793005)
            .wrapping_add(1442695040888963407);
        let high = (self.state >> 33) & 0x7fff_ffff;
        high as u32 % n
    }
}

// Levels that never fall, for the most part: now and then a plan makes no sense, or asks for more than 15.
fn random_least(r: &mut Random) -> [u32; 16] {
    let mut least = [0u32; 16];
    let mut level = 1;
    for entry in least.iter_mut().skip(1) {
        *entry = level;
        if r.below(4) == 0 {
            level = r.below(3).saturating_add(level);
        }
    }
    if r.below(200) == 0 {
        least[15] = u32::MAX;
    }
    if r.below(200) == 0 {
        least[7] = r.below(4);
    }
    least
}

fn random_need(r: &mut Random, x: u32) -> PlanNeed
    requires { 0 < x }
{
    let on = r.below(x);
    let most = if r.below(3) == 0 {
        r.below(13).saturating_add(3)
    } else {
        15
    };
    PlanNeed {
        on,
        least: random_least(r),
        most,
    }
}

// Does it need that one already?
fn has(part: &PlanPart, on: u32) -> bool {
    part.needs().iter().any(|need| need.on == on)
}

// Draws that never fall, for the most part: they climb more often than levels, and break otherwise, so the two share no more than a loop.
fn random_draw(r: &mut Random) -> [u32; 16] {
    let mut draw = [0u32; 16];
    let mut sum = r.below(3);
    for entry in draw.iter_mut().skip(1) {
        *entry = sum;
        sum = r.below(3).saturating_add(sum);
    }
    if r.below(200) == 0 {
        draw[9] = r.below(4);
    }
    draw
}

// A part that needs up to four others.
fn random_part(r: &mut Random, x: u32) -> PlanPart {
    let mut part = PlanPart::none();
    part.set_draw(random_draw(r));
    if x == 0 {
        return part;
    }
    // so many needs, each drawn at random: none is read from a slice
    for _ in 0..r.below(5) {
        let need = random_need(r, x);
        if !has(&part, need.on) {
            let _ = part.add(need);
        }
    }
    part
}

pub fn random_plan(r: &mut Random) -> Plan {
    let mut plan = Plan::none();
    // so many parts, each drawn by its number
    for x in 0..r.below(12) {
        let _ = plan.add(random_part(r, x));
    }
    if r.below(2) == 0 {
        plan.set_gives(r.below(80));
    }
    plan
}
