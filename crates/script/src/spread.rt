// Numbers for the levels from 1 on, as a line writes them: the last that is written holds for all that follow.
ghost use Rattle.std.specs.Prelude.{◌≡◌, ℕ, List, [], ◌∷◌, ◌++◌, Some, None, MatchResult, if◌then◌else◌};
ghost use Rattle.script.specs.Lines.{spread};
ghost use Rattle.script.specs.Steps.{if_spread_fits, numbers_to};
ghost use Rattle.script.specs.Text.{to_come};

use super::line::NoLine;
use super::numbers::decimal;
use super::words::Words;
use std::marker::Model;

// How many a plan can hold.
const MOST_LEVELS: usize = 15;

// The numbers that were read, each at most TOP: `levels` has 0 for off, and then one for each level.
// An array with a count beside it, since all sixteen hold at any time: past the count stands the last number.
#[derive(Drop)]
pub(crate) struct Spread<const TOP: u32> {
    levels: [u32; 16],
    count: usize,
}

impl<const TOP: u32> Model for Spread<TOP> {
    ghost use Rattle.std.specs.Prelude.{ℕ, List};
    ghost use Rattle.script.specs.Steps.{IsSpread, written};

    ghost Value = { List ℕ };

    ghost view = { λ s. written s.count s.levels };

    ghost invariant = { λ s. IsSpread TOP s.count s.levels };
}

impl<const TOP: u32> Spread<TOP> {
    // Nothing at any level.
    pub(crate) fn new() -> Spread<TOP>
        ensures { result ≡ [] }
    {
        Spread {
            levels: [0; 16],
            count: 0,
        }
    }

    // One more, which holds for all levels that follow; false where no plan can hold that. (A spread that is handed on with each number costs a copy.)
    fn push(&mut self, n: u32) -> bool
        ensures { (if result then Some self.new else None) ≡ if_spread_fits TOP (self.old ++ n ∷ []) }
    {
        if n > TOP || self.count >= MOST_LEVELS {
            return false;
        }
        self.count += 1;
        let from = self.count;
        self.levels[from..].fill(n);
        true
    }

    // One number or more, up to this word or the end of the line; `None` where no plan can hold them.
    pub(crate) fn read(words: &mut Words<'_>, until: &[u8]) -> Result<Option<Spread<TOP>>, NoLine>
        ensures { MatchResult result (λ s. (ns : List ℕ) × (numbers_to until.now (to_come words.old) ≡ Some (ns, to_come words.new)) × (s ≡ if_spread_fits TOP ns)) (λ _. numbers_to until.now (to_come words.old) ≡ None) }
    {
        let first = words.number()?;
        let mut spread = Spread::new();
        let mut fits = spread.push(first);
        while let Some(word) = words.next_unless(until) {
            let n = decimal(word).ok_or(NoLine::NotANumber)?;
            if fits {
                fits = spread.push(n);
            }
        }
        if fits { Ok(Some(spread)) } else { Ok(None) }
    }

    // The numbers of all levels; 0 for off.
    pub(crate) fn levels(&self) -> [u32; 16]
        ensures { result ≡ 0 ∷ spread 15 0 self.now }
    {
        self.levels
    }
}
