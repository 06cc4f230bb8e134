// What each user wants: read, asked, taken back and answered.
ghost use Rattle.std.specs.Prelude.{◌≡◌, replicate, slice_set};
ghost use Rattle.power.specs.Board.{Board, None', told, with_wish};
ghost use Rattle.power.specs.Board.{Asked as AskedAt};
ghost use Rattle.power.specs.Mirrors.{asks, once_told, wanted_by, SaysAll};
ghost use Rattle.power.specs.declared.state.Wanted.TheVariants.{Nothing};

use crate::Answer;
use crate::state::{Request, Wanted, Wishes};
use crate::types::UserId;

impl<A> Wanted<A> {
    // Does its user wait?
    pub fn is_asked(&self) -> bool
        ensures { result ≡ asks self.now }
    {
        matches!(self, Wanted::Asked(..))
    }
}

impl<A: Copy> Wanted<A> {
    // What is left of it when its user is told something.
    pub fn once_told(self, a: Answer) -> Wanted<A>
        ensures { result ≡ once_told self a }
    {
        match (self, a) {
            (Wanted::Asked(r, _), Answer::Done) => Wanted::Granted(r),
            (Wanted::Asked(..), Answer::No(_)) => Wanted::Nothing,
            (other, _) => other,
        }
    }
}

// What is wanted is told as a relation to a board's wishes (`SaysAll`), not as a model: a board counts how old an asking is, and this doesn't.
impl Wishes {
    pub(crate) fn new() -> Wishes
        ensures { result.wanted ≡ replicate 32 Nothing }
    {
        Wishes {
            wanted: [Wanted::Nothing; 32],
        }
    }

    pub(crate) fn get(&self, u: UserId) -> Wanted<()>
        ensures { result ≡ wanted_by self.now u.n }
    {
        self.wanted[u.n as usize]
    }

    pub(crate) fn put(&mut self, u: UserId, w: Wanted<()>)
        ensures { self.new.wanted ≡ slice_set self.old.wanted u.n w }
    {
        self.wanted[u.n as usize] = w;
    }

    pub(crate) fn ask(&mut self, u: UserId, r: Request)
        ensures { (b : Board) → SaysAll self.old b → SaysAll self.new (with_wish u.n (AskedAt r.part.n r.level.n 0) b) }
    {
        self.put(u, Wanted::Asked(r, ()));
    }

    pub(crate) fn take_back(&mut self, u: UserId)
        ensures { (b : Board) → SaysAll self.old b → SaysAll self.new (with_wish u.n None' b) }
    {
        self.put(u, Wanted::Nothing);
    }

    // A user is told.
    pub(crate) fn answer(&mut self, u: UserId, a: Answer)
        ensures { (b : Board) → SaysAll self.old b → SaysAll self.new (told u.n a b) }
    {
        self.put(u, self.get(u).once_told(a));
    }
}
