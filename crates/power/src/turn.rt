// Whose turn it is: taken by one who waits, and over when they were told or gave back.
ghost use Rattle.std.specs.Prelude.{◌≡◌, ◌≤◌, not, T, None, IfSome, IsSomeAnd, MatchResult};
ghost use Rattle.power.specs.Board.{can_be, granted, and_also};
ghost use Rattle.power.specs.Sound.{Sound};
ghost use Rattle.power.specs.Mirrors.{SaysAll};
ghost use Rattle.power.specs.Turns.{AimsAt, DoneWith};

use crate::Parts;
use crate::aims::aims;
use crate::rota::after;
use crate::state::{Request, Turn, Wishes};
use crate::types::{CantBe, UserId};

impl Turn {
    pub(crate) fn new() -> Turn
        ensures { result.aims ≡ None }
    {
        Turn {
            user: UserId { n: 0 },
            aims: None,
        }
    }

    // It is the turn of u, who asked for r. What to aim at is made if it wasn't yet: so this asks of the board what `aims` does.
    pub(crate) fn take<P: Parts>(
        &mut self,
        b: &P,
        wishes: &Wishes,
        u: UserId,
        r: Request,
    ) -> Result<(), CantBe>
        requires few { (P.board b.now).parts ≤ 64 }
        requires sound { Sound (P.board b.now) }
        requires says { SaysAll wishes.now (P.board b.now) }
        requires kept { IfSome self.old.aims (λ a. AimsAt (P.board b.now) a r.part.n r.level.n) }
        ensures user { self.new.user ≡ u }
        ensures aims { MatchResult result (λ _. IsSomeAnd self.new.aims (λ a. AimsAt (P.board b.now) a r.part.n r.level.n)) (λ _. T (not (can_be (P.board b.now) (and_also (granted (P.board b.now)) r.part.n r.level.n)))) }
    {
        self.user = u;
        if self.aims.is_none() {
            let found = aims(b, wishes.granted(), r)?;
            self.aims = Some(found);
        }
        Ok(())
    }

    // u is done with: told, or gave back.
    pub(crate) fn over(&mut self, u: UserId)
        ensures { DoneWith u.n self.old self.new }
    {
        if self.user == u {
            self.user = after(u);
            self.aims = None;
        }
    }
}
