// The end of a tick's work: a user is told, and the tick goes by.
ghost use Rattle.std.specs.Prelude.{◌≡◌, ◌<◌};
ghost use Rattle.power.specs.Board.{Board, told, ticked};
ghost use Rattle.power.specs.Mirrors.{SaysAll};
ghost use Rattle.power.specs.Rota.{NobodyWaits};
ghost use Rattle.power.specs.Turns.{DoneWith};
ghost use Rattle.power.specs.Kept.{Mirrors};

use crate::counts::one_more;
use crate::types::UserId;
use crate::{Answer, Keeper};

impl Keeper {
    // u is told.
    pub(crate) fn tell(&mut self, u: UserId, a: Answer)
        ensures mirrors { (b : Board) → Mirrors self.old b → Mirrors self.new (told u.n a b) }
        ensures turn { DoneWith u.n self.old.turn self.new.turn }
    {
        self.wishes.answer(u, a);
        self.driver.answered(a);
        self.turn.over(u);
        self.idle = 0;
    }

    // For how many ticks it has been quiet after this one.
    fn quiet_after(&self) -> u32
        ensures counts { (b : Board) → SaysAll self.now.wishes b → self.now.idle ≡ b.quiet → result ≡ (ticked b).quiet }
        ensures calm { 0 < result → NobodyWaits self.now.wishes 0 32 }
    {
        if self.idle > 0 {
            return one_more(self.idle);
        }
        match self.wishes.first(0, 32) {
            Some(_) => 0,
            None => 1,
        }
    }

    // The tick goes by: it is counted if it was quiet, and its askings are over.
    pub(crate) fn tick(&mut self)
        ensures mirrors { (b : Board) → Mirrors self.old b → Mirrors self.new (ticked b) }
        ensures turn { self.new.turn ≡ self.old.turn }
    {
        self.idle = self.quiet_after();
        self.driver.rest();
    }

    // The same where nobody waits: no user is looked at again.
    pub(crate) fn quiet_tick(&mut self)
        requires nobody { NobodyWaits self.old.wishes 0 32 }
        ensures mirrors { (b : Board) → Mirrors self.old b → Mirrors self.new (ticked b) }
        ensures turn { self.new.turn ≡ self.old.turn }
    {
        self.idle = one_more(self.idle);
        self.driver.rest();
    }
}
