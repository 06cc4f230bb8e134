// The least levels that serve what is wanted: from the last part to the first, each pushes what it needs onto its needs.
// Loops go by number here, and where parts are moved: a board is asked of a part, and a part of a need, by number.
ghost use Rattle.std.specs.Prelude.{◌≡◌, ◌<◌, ◌≤◌, not, ◌||◌, T, length, MatchResult, ◌==◌, nat_le};
ghost use Rattle.power.specs.Board.{good_plan, can_be, drawn_at, draw_at, on_of, most_of};
ghost use Rattle.power.specs.Promise.{allowed'};
ghost use Rattle.power.specs.Tables.{at};
ghost use Rattle.power.specs.Found.{Pushed, Swept, needs_fit, parts_fit, Finds};

use crate::Parts;
use crate::datasheet::{DataSheet, LowLevels, PartSheet};
use crate::types::{CantBe, Level, Levels, PartId};

// no level is above it
const TOP: u32 = Level::TOP;

impl<P: Parts> PartSheet<'_, P> {
    // The part that its kth need is on.
    fn need_on(&self, k: u32) -> PartId
        requires need { k < length ((P.board self.now.board.now).needs self.now.part.n) }
        ensures { result.n ≡ on_of k ((P.board self.now.board.now).needs self.now.part.n) }
    {
        let n = self.board.need_on(self.part.n, k);
        PartId { n }
    }

    // All its needs, the part being at level l.
    fn push(&self, l: u32, ls: &mut Levels)
        requires low { l ≤ 15 }
        ensures { let needs = (P.board self.now.board.now).needs self.now.part.n in Pushed needs l (length needs) (at ls.old) (at ls.new) }
    {
        for k in 0..self.board.needs(self.part.n) {
            let on = self.need_on(k);
            ls.also(on, self.board.need_least(self.part.n, k, l));
        }
    }

    // Its kth need is no higher than it allows.
    fn need_fits(&self, k: u32, ls: &Levels) -> bool
        requires need { k < length ((P.board self.now.board.now).needs self.now.part.n) }
        ensures { let needs = (P.board self.now.board.now).needs self.now.part.n in result ≡ nat_le (at ls.now (on_of k needs)) (most_of k needs) }
    {
        ls.get(self.need_on(k)) <= self.board.need_most(self.part.n, k)
    }

    // None of its needs is higher.
    fn needs_fit(&self, ls: &Levels) -> bool
        ensures { result ≡ needs_fit (P.board self.now.board.now) (at ls.now) self.now.part.n }
    {
        (0..self.board.needs(self.part.n)).all(|k| self.need_fits(k, ls))
    }

    // The same, if it isn't off.
    fn fits(&self, ls: &Levels) -> bool
        ensures { result ≡ (at ls.now self.now.part.n == 0 || needs_fit (P.board self.now.board.now) (at ls.now) self.now.part.n) }
    {
        ls.get(self.part) == 0 || self.needs_fit(ls)
    }

    // What it draws.
    fn draw(&self, ls: &LowLevels) -> u32
        ensures { result ≡ draw_at (P.board self.now.board.now) self.now.part.n (at ls.now.of self.now.part.n) }
    {
        self.board.draw(self.part.n, ls.of.get(self.part))
    }
}

impl<'b, P: Parts> DataSheet<'b, P> {
    fn part(&self, n: u32) -> PartSheet<'b, P>
        requires there { n < (P.board self.now.board.now).parts }
        ensures board { result.board.now ≡ self.now.board.now }
        ensures part { result.part.n ≡ n }
    {
        PartSheet {
            board: self.board,
            part: PartId { n },
        }
    }

    // The least levels, if none is above 15. A part is final when its turn comes: only parts after it need it.
    fn sweep(&self, want: &Levels) -> Result<LowLevels, CantBe>
        ensures { MatchResult result (λ ls. Swept (P.board self.now.board.now) (at want.now) ls.of) (λ _. T (not (can_be (P.board self.now.board.now) (at want.now)))) }
    {
        let mut ls = Levels::new();
        let parts = self.board.parts();
        for n in (0..parts).rev() {
            let x = self.part(n);
            ls.also(x.part, want.get(x.part));
            let l = ls.get(x.part);
            if l > TOP {
                return Err(CantBe);
            }
            x.push(l, &mut ls);
        }
        Ok(LowLevels { of: ls })
    }

    // Each part allows these levels.
    fn all_fit(&self, ls: &LowLevels) -> bool
        ensures { result ≡ parts_fit (P.board self.now.board.now) (at ls.now.of) }
    {
        (0..self.board.parts()).all(|n| self.part(n).fits(&ls.of))
    }

    // What all parts draw together. 64 times 2^32 fits a u64.
    fn draws(&self, ls: &LowLevels) -> u64
        ensures { result ≡ drawn_at (P.board self.now.board.now) (at ls.now.of) }
    {
        let parts = self.board.parts();
        (0..parts).map(|n| u64::from(self.part(n).draw(ls))).sum()
    }

    // They're allowed: by each part, and all together.
    fn allows(&self, ls: &LowLevels) -> bool
        ensures { result ≡ allowed' (P.board self.now.board.now) (at ls.now.of) }
    {
        self.all_fit(ls) && self.draws(ls) <= u64::from(self.board.gives())
    }

    // The least levels that serve what is wanted, if it can be.
    pub(crate) fn least(&self, want: &Levels) -> Result<Levels, CantBe>
        ensures { Finds (P.board self.now.board.now) (at want.now) result }
    {
        let ls = self.sweep(want)?;
        if self.allows(&ls) {
            Ok(ls.of)
        } else {
            Err(CantBe)
        }
    }
}

// The same, of a board. It asks for what a data sheet's type says, since callers have a board and no sheet.
pub fn least<P: Parts>(b: &P, want: &Levels) -> Result<Levels, CantBe>
    requires few { (P.board b.now).parts ≤ 64 }
    requires plan { T (good_plan (P.board b.now)) }
    ensures { Finds (P.board b.now) (at want.now) result }
{
    DataSheet { board: b }.least(want)
}
