// A tick's way for one want: down to the ceiling, then up to the goal.
ghost use Rattle.std.specs.Prelude.{◌≡◌};
ghost use Rattle.power.specs.Loans.{SameLoans};
ghost use Rattle.power.specs.Tables.{at};
ghost use Rattle.power.specs.Moves.{Targets, CameNearer, AllEnd};

use crate::Parts;
use crate::drive::Drive;
use crate::state::Halt;
use crate::types::Aims;

impl<P: Parts> Drive<'_, P> {
    pub(crate) fn go(&mut self, aims: &Aims) -> Result<(), Halt>
        requires aims { Targets (P.board self.old.board.now) (at aims.now.ceiling) (at aims.now.goal) }
        ensures came { CameNearer (at aims.now.goal) self.old.driver.now.left (P.board self.old.board.now) self.new.driver.now.left (P.board self.new.board.now) }
        ensures ends { AllEnd result (P.board self.new.board.now) (at aims.now.goal) self.new.driver.now.left }
        ensures same { SameLoans self.old self.new }
    {
        self.come_down(&aims.ceiling)?;
        self.go_up(aims)
    }
}
