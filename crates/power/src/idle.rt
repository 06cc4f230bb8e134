// A tick in which nobody waits: after 32 of them the board comes down to the least for what was granted.
ghost use Rattle.std.specs.Prelude.{◌≡◌, ◌≤◌, T, None};
ghost use Rattle.power.specs.Loans.{SameLoans};
ghost use Rattle.power.specs.Board.{lean};
ghost use Rattle.power.specs.Mirrors.{SaysAll};
ghost use Rattle.power.specs.Moves.{OnlyParts};
ghost use Rattle.power.specs.Rota.{NobodyWaits};
ghost use Rattle.power.specs.Kept.{Kept, Worked};

use crate::drive::Drive;
use crate::least::least;
use crate::state::Wishes;
use crate::{Keeper, Parts};

// Whoever gives something back often wants it again soon: until then all stays as it is.
const COMES_DOWN_AFTER: u32 = 32;

impl<P: Parts> Drive<'_, P> {
    // Down to the least for what was granted; a tick's askings are enough.
    pub(crate) fn settle(&mut self, wishes: &Wishes)
        requires says { SaysAll wishes.now (P.board self.old.board.now) }
        requires all { self.old.driver.now.left ≡ 1024 }
        ensures only { OnlyParts (P.board self.old.board.now) (P.board self.new.board.now) }
        ensures low { T (lean (P.board self.new.board.now)) }
        ensures same { SameLoans self.old self.new }
    {
        let granted = wishes.granted();
        if let Ok(to) = least(&*self.board, &granted) {
            let _ = self.come_down(&to);
        }
    }
}

impl Keeper {
    pub(crate) fn be_idle<P: Parts>(&mut self, b: &mut P)
        requires kept { Kept self.old (P.board b.old) }
        requires all { self.old.driver.left ≡ 1024 }
        requires nobody { NobodyWaits self.old.wishes 0 32 }
        ensures { Worked None self.new (P.board b.new) }
    {
        if self.idle == COMES_DOWN_AFTER {
            let mut drive = Drive {
                board: b,
                driver: &mut self.driver,
            };
            drive.settle(&self.wishes);
        }
        self.quiet_tick();
    }
}
