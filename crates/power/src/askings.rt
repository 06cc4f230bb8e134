// What is asked of the board: one method for each thing, that changes the board and what is known of it together. One that takes what to ask as a
// closure would be no plainer: the four require and do another thing each, and all they share is the count.
// `may` is what the data sheet asks; `can` is the budget of this tick, which falls with each asking (`spends`): so no type says it.
ghost use Rattle.std.specs.Prelude.{◌≡◌, ◌+◌, ◌<◌};
ghost use Rattle.power.specs.Loans.{SameLoans};
ghost use Rattle.power.specs.Board.{MayRaise, MayLower, MayLevel, Tries, raised, lowered, levelled};
ghost use Rattle.power.specs.Mirrors.{state_at};
ghost use Rattle.power.specs.declared.state.PartState.TheVariants.{Rising};

use crate::Parts;
use crate::drive::Drive;
use crate::state::{PartState, Tried};
use crate::types::{Level, PartId};

// Board and driver are taken before the first of them changes: what is known has to be so again only when both have.
impl<P: Parts> Drive<'_, P> {
    pub(crate) fn lower_part(&mut self, x: PartId)
        requires may { MayLower (P.board self.old.board.now) x.n }
        requires can { 0 < self.old.driver.now.left }
        ensures does { P.board self.new.board.now ≡ lowered x.n (P.board self.old.board.now) }
        ensures spends { self.new.driver.now.left + 1 ≡ self.old.driver.now.left }
        ensures same { SameLoans self.old self.new }
    {
        let driver = &mut *self.driver;
        let board = &mut *self.board;
        driver.left -= 1;
        board.lower(x.n);
        driver.mirror.put(x, PartState::Off);
    }

    pub(crate) fn raise_part(&mut self, x: PartId)
        requires may { MayRaise (P.board self.old.board.now) x.n }
        requires can { 0 < self.old.driver.now.left }
        ensures does { P.board self.new.board.now ≡ raised x.n (P.board self.old.board.now) }
        ensures spends { self.new.driver.now.left + 1 ≡ self.old.driver.now.left }
        ensures same { SameLoans self.old self.new }
    {
        let driver = &mut *self.driver;
        let board = &mut *self.board;
        driver.left -= 1;
        board.raise(x.n);
        driver.mirror.put(x, PartState::Rising(Tried { n: 0 }));
    }

    pub(crate) fn level_part(&mut self, x: PartId, v: Level)
        requires may { MayLevel (P.board self.old.board.now) x.n v.n }
        requires can { 0 < self.old.driver.now.left }
        ensures does { P.board self.new.board.now ≡ levelled x.n v.n (P.board self.old.board.now) }
        ensures spends { self.new.driver.now.left + 1 ≡ self.old.driver.now.left }
        ensures same { SameLoans self.old self.new }
    {
        let driver = &mut *self.driver;
        let board = &mut *self.board;
        driver.left -= 1;
        board.level(x.n, v.n);
        driver.mirror.put(x, PartState::On(v));
    }

    // Is a rising part good? Asked no more than 64 times.
    pub(crate) fn try_part(&mut self, x: PartId, tried: Tried) -> bool
        requires there { x.n < (P.board self.old.board.now).parts }
        requires rises { Rising tried ≡ state_at self.old.driver.now.mirror x.n }
        requires few { tried.n < 64 }
        requires can { 0 < self.old.driver.now.left }
        ensures does { Tries (P.board self.old.board.now) x.n result (P.board self.new.board.now) }
        ensures spends { self.new.driver.now.left + 1 ≡ self.old.driver.now.left }
        ensures same { SameLoans self.old self.new }
    {
        let driver = &mut *self.driver;
        let board = &mut *self.board;
        driver.left -= 1;
        if board.good(x.n) {
            driver.mirror.put(x, PartState::On(Level { n: 1 }));
            return true;
        }
        driver
            .mirror
            .put(x, PartState::Rising(Tried { n: tried.n + 1 }));
        false
    }
}
