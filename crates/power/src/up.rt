// The way up to a goal below the ceiling: the parts from the first to the last, so that each has what it needs.
// `came` stands at each of the three ways: what a way has come to is what it promises, and no type holds it.
ghost use Rattle.std.specs.Prelude.{◌≡◌, ◌<◌, ◌≤◌};
ghost use Rattle.power.specs.Loans.{SameLoans};
ghost use Rattle.power.specs.Tables.{at};
ghost use Rattle.power.specs.Walk.{Up};
ghost use Rattle.power.specs.Moves.{CameNearer, PartEnds, AllEnd};

use crate::Parts;
use crate::drive::Drive;
use crate::state::{Halt, PartState};
use crate::types::{Aims, Level, PartId};

// How often a rising part is asked whether it's good.
const TRIES: u32 = 64;

impl<P: Parts> Drive<'_, P> {
    // One part, whose needs are through.
    pub(crate) fn raise_to(&mut self, x: PartId, aims: &Aims) -> Result<(), Halt>
        requires part { x.n < (P.board self.old.board.now).parts }
        requires up { Up (P.board self.old.board.now) (at aims.now.ceiling) (at aims.now.goal) x.n }
        ensures came { CameNearer (at aims.now.goal) self.old.driver.now.left (P.board self.old.board.now) self.new.driver.now.left (P.board self.new.board.now) }
        ensures ends { PartEnds result (P.board self.new.board.now) (at aims.now.goal) x.n self.new.driver.now.left }
        ensures up { Up (P.board self.new.board.now) (at aims.now.ceiling) (at aims.now.goal) x.n }
        ensures same { SameLoans self.old self.new }
    {
        let l = aims.goal.get(x);
        if l == 0 {
            return Ok(());
        }
        // as long as it may ask: each turn asks once
        while self.driver.left > 0 {
            match self.driver.mirror.get(x) {
                PartState::Off => self.raise_part(x),
                PartState::Rising(tried) => {
                    if tried.n == TRIES {
                        return Err(Halt::Stuck);
                    }
                    let _ = self.try_part(x, tried);
                }
                PartState::On(v) => {
                    if v.n >= l {
                        return Ok(());
                    }
                    self.level_part(x, Level { n: v.n + 1 });
                }
            }
        }
        Err(Halt::Spent)
    }

    // All parts.
    pub(crate) fn go_up(&mut self, aims: &Aims) -> Result<(), Halt>
        requires up { Up (P.board self.old.board.now) (at aims.now.ceiling) (at aims.now.goal) 0 }
        ensures came { CameNearer (at aims.now.goal) self.old.driver.now.left (P.board self.old.board.now) self.new.driver.now.left (P.board self.new.board.now) }
        ensures ends { AllEnd result (P.board self.new.board.now) (at aims.now.goal) self.new.driver.now.left }
        ensures same { SameLoans self.old self.new }
    {
        let n = self.board.parts();
        // by number, as a board is asked
        for x in 0..n {
            self.raise_to(PartId { n: x }, aims)?;
        }
        Ok(())
    }
}
