// The needs of a part, as a line writes them: `Y from A B .. most M and Y from ..`.
ghost use Rattle.std.specs.Prelude.{◌≡◌, ℕ, ◌<◌, List, [], ◌∷◌, ◌++◌, length, Some, None, MatchResult};
ghost use Rattle.script.specs.Lines.{Written, follow, needs};
ghost use Rattle.script.specs.Steps.{Gathered, Levelled, Needed};
ghost use Rattle.script.specs.Text.{to_come};

use super::line::NoLine;
use super::spread::Spread;
use super::words::Words;
use power::types::Level;
use sim::plan::{PlanNeed, PlanPart};

// The need of at most `most` with these levels, if a plan can hold it.
fn plan_need(on: u32, levels: Option<Spread<{ Level::TOP }>>, most: u32) -> Option<PlanNeed>
    ensures { (ls : List ℕ) → Levelled levels ls → Needed result (record { on = on; levels = ls; most = most }) }
{
    let least = levels?.levels();
    if most <= Level::TOP {
        Some(PlanNeed { on, least, most })
    } else {
        None
    }
}

// `Y from A B .. most M`, as a need if a plan can hold it.
fn need(words: &mut Words<'_>) -> Result<Option<PlanNeed>, NoLine>
    ensures { MatchResult result (λ o. (w : Written) × Needed o w × (needs (to_come words.old) ≡ follow w (to_come words.new)) × (length (to_come words.new) < length (to_come words.old))) (λ _. needs (to_come words.old) ≡ None) }
{
    let on = words.number()?;
    words.keyword(b"from")?;
    let levels = Spread::read(words, b"most")?;
    words.keyword(b"most")?;
    let most = words.number()?;
    Ok(plan_need(on, levels, most))
}

// One need more, if a plan can hold it.
fn push_need(part: &mut Option<PlanPart>, need: Option<PlanNeed>)
    ensures { (ws : List Written) (w : Written) → Gathered part.old ws → Needed need w → Gathered part.new (ws ++ w ∷ []) }
{
    let Some(whole) = &mut *part else {
        return;
    };
    let Some(need) = need else {
        *part = None;
        return;
    };
    if whole.add(need).is_err() {
        *part = None;
    }
}

// The needs up to the end of a line, if a plan can hold them.
pub(crate) fn all_needs(words: &mut Words<'_>) -> Result<Option<PlanPart>, NoLine>
    ensures { MatchResult result (λ p. (ws : List Written) × Gathered p ws × (needs (to_come words.old) ≡ Some ws)) (λ _. needs (to_come words.old) ≡ None) }
{
    let mut part = Some(PlanPart::none());
    loop {
        let one = need(words)?;
        push_need(&mut part, one);
        match words.next() {
            None => return Ok(part),
            Some(b"and") => {}
            Some(_) => return Err(NoLine::ExtraWord),
        }
    }
}
