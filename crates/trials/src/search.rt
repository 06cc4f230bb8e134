// The lowest levels that serve, found by trying: from all off, a part that is too low goes up by one, until none is.
use power::types::Levels;
use sim::plan::{Plan, PlanNeed, PlanPart};

// The part that is needed is lower than a part at this level needs it.
fn is_too_low(need: &PlanNeed, level: u32, levels: &[u32; 64]) -> bool {
    match (levels.get(need.on as usize), need.least.get(level as usize)) {
        (Some(found), Some(least)) => found < least,
        _ => false,
    }
}

// A need of a part at this level that is too low for it.
fn need_too_low(part: &PlanPart, level: u32, levels: &[u32; 64]) -> Option<usize> {
    let need = part
        .needs()
        .iter()
        .find(|need| is_too_low(need, level, levels))?;
    Some(need.on as usize)
}

// A part that is lower than it's wanted, or than what a part that isn't off needs.
fn too_low(plan: &Plan, want: &Levels, levels: &[u32; 64]) -> Option<usize> {
    let parts = &plan.part[..plan.parts as usize];
    for (x, ((part, level), wanted)) in parts.iter().zip(levels).zip(&want.of).enumerate() {
        if level < wanted {
            return Some(x);
        }
        if *level > 0 {
            let low = need_too_low(part, *level, levels);
            if low.is_some() {
                return low;
            }
        }
    }
    None
}

// No need of a part is higher than the part allows.
fn within(part: &PlanPart, levels: &[u32; 64]) -> bool {
    part.needs().iter().all(|need| match levels.get(need.on as usize) {
        Some(level) => *level <= need.most,
        None => true,
    })
}

// What a part draws at this level.
fn draw(part: &PlanPart, level: u32) -> u64 {
    part.draw
        .get(level as usize)
        .map_or(0, |draw| u64::from(*draw))
}

// The levels, or none where one would have to be above 15, or above what a part allows, or more is drawn than is given.
pub fn lowest(plan: &Plan, want: &Levels) -> Option<[u32; 64]> {
    let mut levels = [0u32; 64];
    // 64 parts, each raised 15 times at most
    for _ in 0..1024 {
        match too_low(plan, want, &levels) {
            Some(x) if x < 64 && levels[x] < 15 => levels[x] += 1,
            Some(_) => return None,
            None => break,
        }
    }
    let mut drawn: u64 = 0;
    for (part, level) in plan.part[..plan.parts as usize].iter().zip(&levels) {
        if *level > 0 && !within(part, &levels) {
            return None;
        }
        drawn = drawn.saturating_add(draw(part, *level));
    }
    if drawn > u64::from(plan.gives) {
        return None;
    }
    Some(levels)
}
