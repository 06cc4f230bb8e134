// The rota: whose turn is next, and who of those who wait comes first.
ghost use Rattle.std.specs.Prelude.{◌≡◌, ◌<◌, ◌≤◌, ◌↔◌, IsTrue, MatchOption};
ghost use Rattle.power.specs.Mirrors.{Waits, wanted_by};
ghost use Rattle.power.specs.Rota.{next_of, NobodyWaits, FirstWaits, IsHead};

use crate::Keeper;
use crate::state::Wishes;
use crate::types::UserId;

pub(crate) fn after(u: UserId) -> UserId
    ensures { result.n ≡ next_of u.n }
{
    if u.n < 31 {
        UserId { n: u.n + 1 }
    } else {
        UserId { n: 0 }
    }
}

impl Wishes {
    // Does the user of this number wait?
    fn waits(&self, n: u32) -> bool
        requires { n < 32 }
        ensures { IsTrue result ↔ Waits (wanted_by self.now n) }
    {
        self.get(UserId { n }).is_asked()
    }

    // The first who waits, of the users `from` up to `to`.
    pub(crate) fn first(&self, from: u32, to: u32) -> Option<UserId>
        requires { to ≤ 32 }
        ensures { MatchOption result (NobodyWaits self.now from to) (λ w. FirstWaits self.now from to w.n) }
    {
        let n = (from..to).find(|n| self.waits(*n))?;
        Some(UserId { n })
    }

    // The first who waits from the turn on, round and round.
    pub(crate) fn head(&self, turn: UserId) -> Option<UserId>
        ensures { MatchOption result (NobodyWaits self.now 0 32) (λ w. IsHead self.now turn.n w.n) }
    {
        self.first(turn.n, 32).or_else(|| self.first(0, turn.n))
    }
}

impl Keeper {
    // The first who waits, if anybody does. While it's quiet nobody is looked at.
    pub(crate) fn head(&self) -> Option<UserId>
        ensures { MatchOption result (NobodyWaits self.now.wishes 0 32) (λ w. IsHead self.now.wishes self.now.turn.user.n w.n) }
    {
        if self.idle > 0 {
            return None;
        }
        self.wishes.head(self.turn.user)
    }
}
