// The way down to a ceiling: the parts from the last to the first, so that no part loses what another still needs.
ghost use Rattle.std.specs.Prelude.{◌≡◌, ◌+◌, ◌<◌, ◌≤◌};
ghost use Rattle.power.specs.Loans.{SameLoans};
ghost use Rattle.power.specs.Board.{level_of};
ghost use Rattle.power.specs.Aim.{Fits, Covers};
ghost use Rattle.power.specs.Tables.{at};
ghost use Rattle.power.specs.Walk.{Below, Down};
ghost use Rattle.power.specs.Moves.{CameDown, OrSpent};

use crate::Parts;
use crate::drive::Drive;
use crate::state::Spent;
use crate::types::{Level, Levels, PartId};

impl<P: Parts> Drive<'_, P> {
    // One part, whose users are through.
    pub(crate) fn lower_to(&mut self, x: PartId, ceiling: &Levels) -> Result<(), Spent>
        requires part { x.n < (P.board self.old.board.now).parts }
        requires down { Down (P.board self.old.board.now) (at ceiling.now) (x.n + 1) }
        ensures came { CameDown (at ceiling.now) self.old.driver.now.left (P.board self.old.board.now) self.new.driver.now.left (P.board self.new.board.now) }
        ensures ends { OrSpent result self.new.driver.now.left (level_of ((P.board self.new.board.now).part x.n) ≤ at ceiling.now x.n) }
        ensures down { Down (P.board self.new.board.now) (at ceiling.now) (x.n + 1) }
        ensures same { SameLoans self.old self.new }
    {
        let t = ceiling.get(x);
        // as long as it may ask: each turn asks once
        while self.driver.left > 0 {
            let v = self.driver.mirror.level(x);
            if v <= t {
                return Ok(());
            }
            if t == 0 {
                self.lower_part(x);
            } else {
                self.level_part(x, Level { n: v - 1 });
            }
        }
        Err(Spent)
    }

    // All parts.
    pub(crate) fn come_down(&mut self, ceiling: &Levels) -> Result<(), Spent>
        requires fits { Fits (P.board self.old.board.now) (at ceiling.now) }
        requires covers { Covers (P.board self.old.board.now) (at ceiling.now) }
        ensures came { CameDown (at ceiling.now) self.old.driver.now.left (P.board self.old.board.now) self.new.driver.now.left (P.board self.new.board.now) }
        ensures ends { OrSpent result self.new.driver.now.left (Below (P.board self.new.board.now) (at ceiling.now)) }
        ensures same { SameLoans self.old self.new }
    {
        let n = self.board.parts();
        // by number, as a board is asked
        for x in (0..n).rev() {
            self.lower_to(PartId { n: x }, ceiling)?;
        }
        Ok(())
    }
}
