// A tick's work for the user whose turn it is: down to the ceiling, up to the goal, and the answer.
// That keeper and board go together is a clause here: a struct of the two, as `Drive` is, would have to let that go with the first thing it asks.
ghost use Rattle.std.specs.Prelude.{◌≡◌, ◌<◌, IfSome};
ghost use Rattle.power.specs.Sound.{Sound};
ghost use Rattle.power.specs.Moves.{OnlyParts};
ghost use Rattle.power.specs.Rota.{IsHead};
ghost use Rattle.power.specs.Turns.{AimsAt};
ghost use Rattle.power.specs.Kept.{Mirrors, Kept, Pursued, Worked};

use crate::drive::Drive;
use crate::not_done::NotDone;
use crate::state::{Halt, Request, Wanted};
use crate::types::UserId;
use crate::{Answer, Keeper, Parts};

// A user and a request stay two: what is aimed at is a request's, whoever asked. That all of a tick's askings are left (`all`) holds at its
// beginning and no longer: no type of the driver says it.
impl Keeper {
    // What u, who asked for r, is to be told, if anything yet.
    pub(crate) fn pursue<P: Parts>(&mut self, b: &mut P, u: UserId, r: Request) -> Option<Answer>
        requires mirrors { Mirrors self.old (P.board b.old) }
        requires sound { Sound (P.board b.old) }
        requires part { r.part.n < (P.board b.old).parts }
        requires all { self.old.driver.left ≡ 1024 }
        requires aims { IfSome self.old.turn.aims (λ a. AimsAt (P.board b.old) a r.part.n r.level.n) }
        ensures pursued { Pursued result self.new.turn.aims r.part.n r.level.n (P.board b.old) (P.board b.new) }
        ensures only { OnlyParts (P.board b.old) (P.board b.new) }
        ensures sound { Sound (P.board b.new) }
        ensures mirrors { Mirrors self.new (P.board b.new) }
        ensures wishes { self.new.wishes ≡ self.old.wishes }
        ensures user { self.new.turn.user ≡ u }
    {
        if let Err(e) = self.turn.take(b, &self.wishes, u, r) {
            return Some(Answer::No(NotDone::from(e).into()));
        }
        // `take` made them, if nobody had
        let aims = self.turn.aims.as_ref().unwrap();
        let mut drive = Drive {
            board: b,
            driver: &mut self.driver,
        };
        match drive.go(aims) {
            Ok(()) => Some(Answer::Done),
            Err(Halt::Spent) => None,
            Err(Halt::Stuck) => Some(Answer::No(NotDone::NotGood.into())),
        }
    }

    // The work for the first who waits.
    pub(crate) fn attend<P: Parts>(&mut self, b: &mut P, u: UserId) -> Option<(u32, Answer)>
        requires kept { Kept self.old (P.board b.old) }
        requires all { self.old.driver.left ≡ 1024 }
        requires head { IsHead self.old.wishes self.old.turn.user.n u.n }
        ensures { Worked result self.new (P.board b.new) }
    {
        let Wanted::Asked(r, ()) = self.wishes.get(u) else {
            return None;
        };
        match self.pursue(b, u, r) {
            None => {
                self.tick();
                None
            }
            Some(a) => {
                self.tell(u, a);
                self.tick();
                Some((u.n, a))
            }
        }
    }
}
