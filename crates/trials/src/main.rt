// Compares the least that the code finds with the lowest levels found by trying, on random plans.
#![tactic(auto)]

mod random;
mod search;

use power::least::least;
use power::types::{Levels, PartId};
use random::{Random, random_plan};
use search::lowest;
use sim::state::Sim;
use std::io;

// What came of the trials.
#[derive(Clone, Copy, Default)]
struct Count {
    can: u32,
    cannot: u32,
    differ: u32,
    senseless: u32,
}

// One plan, with some wants.
fn trial(r: &mut Random, count: &mut Count) {
    let plan = random_plan(r);
    let Ok(sim) = Sim::new(plan) else {
        count.senseless = count.senseless.saturating_add(1);
        return;
    };
    let mut want = Levels::new();
    if plan.parts > 0 {
        // so many wants: no slice is gone through
        for _ in 0..4 {
            let n = r.below(plan.parts);
            want.put(PartId { n }, r.below(17));
        }
    }
    let found = lowest(&plan, &want);
    let agree = match least(&sim, &want) {
        Ok(ls) => {
            count.can = count.can.saturating_add(1);
            found == Some(ls.of)
        }
        Err(_) => {
            count.cannot = count.cannot.saturating_add(1);
            found.is_none()
        }
    };
    if !agree {
        count.differ = count.differ.saturating_add(1);
    }
}

fn main(rt: HostRuntime) -> io::Result<()> {
    let mut r = Random { state: 1 };
    let mut count = Count::default();
    // so many plans: no slice is gone through
    for _ in 0..600 {
        trial(&mut r, &mut count);
    }
    let Count {
        can,
        cannot,
        differ,
        senseless,
    } = count;
    println!(rt; "{can} can be, {cannot} can't be, {differ} differ, {senseless} make no sense")
}
