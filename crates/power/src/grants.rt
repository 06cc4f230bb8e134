// What was granted, as a level for each part.
ghost use Rattle.std.specs.Prelude.{◌≡◌, ℕ, slice_index_or};
ghost use Rattle.power.specs.Board.{Board, granted, larger, most};
ghost use Rattle.power.specs.Tables.{at};
ghost use Rattle.power.specs.Grants.{grant_of};
ghost use Rattle.power.specs.Mirrors.{SaysAll};
ghost use Rattle.power.specs.declared.state.Wanted.TheVariants.{Nothing};

use crate::state::{Wanted, Wishes};
use crate::types::Levels;

impl Levels {
    // with what one user was granted
    fn and_granted<A>(&mut self, w: &Wanted<A>)
        ensures { (x : ℕ) → at self.new x ≡ larger (at self.old x) (grant_of x w.now) }
    {
        if let Wanted::Granted(r) = w {
            self.also(r.part, r.level.n);
        }
    }

    // What users who want this were granted.
    pub fn granted<A>(wanted: &[Wanted<A>; 32]) -> Levels
        ensures { (x : ℕ) → at result x ≡ most 32 (λ u. grant_of x (slice_index_or wanted.now u Nothing)) }
    {
        let mut levels = Levels::new();
        for w in wanted {
            levels.and_granted(w);
        }
        levels
    }
}

impl Wishes {
    pub(crate) fn granted(&self) -> Levels
        ensures { (b : Board) → SaysAll self.now b → (x : ℕ) → at result x ≡ granted b x }
    {
        Levels::granted(&self.wanted)
    }
}
