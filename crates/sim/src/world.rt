// A board in memory is a `World`, of which nobody asks anything: whoever has users puts them before it.
ghost use Rattle.std.specs.Prelude.{◌≡◌, ◌<◌, T};
ghost use Rattle.power.specs.Board.{with_wish, why, called, may_tell, told, in_time, ticked};
ghost use Rattle.sim.specs.Boards.{board_of, wish_of, anew};
ghost use Rattle.sim.specs.Paces.{SamePaces};

use super::state::{Sim, SimPart};
use super::wishes::let_tick_pass;
use power::counts::one_more;
use power::not_done::is_not_good;
use power::state::{Request, Wanted};
use power::types::{Level, PartId};
use power::{ASKINGS, Answer, Call, Next, World};

impl SimPart {
    // The same part, tried anew.
    pub(crate) fn anew(self) -> SimPart
        ensures state { result.state ≡ self.state }
        ensures tried { result.tried ≡ 0 }
        ensures paces { (result.pace ≡ self.pace) × (result.next_pace ≡ self.next_pace) }
    {
        SimPart { tried: 0, ..self }
    }
}

impl Sim {
    fn set_wish(&mut self, u: u32, w: Wanted<u32>)
        requires user { u < 32 }
        ensures does { board_of self.new ≡ with_wish u (wish_of w) (board_of self.old) }
        ensures paces { SamePaces self.old self.new }
    {
        self.wishes[u as usize] = w;
        self.quiet = 0;
    }

    fn try_anew(&mut self)
        ensures does { board_of self.new ≡ anew (board_of self.old) }
        ensures paces { SamePaces self.old self.new }
    {
        for part in self.parts.iter_mut() {
            *part = part.anew();
        }
    }
}

impl World for Sim {
    fn next(&mut self) -> Next {
        Next::Over
    }

    // `no` is a number, 0 where the call was taken: so the trait says it.
    fn said(&mut self, c: Call, no: u32)
        requires { no ≡ why c (board_of self.old) }
        ensures does { board_of self.new ≡ called c (board_of self.old) }
        ensures paces { SamePaces self.old self.new }
    {
        if no != 0 {
            return;
        }
        match c {
            Call::Want(u, x, l) => {
                let request = Request {
                    part: PartId { n: x },
                    level: Level { n: l },
                };
                self.set_wish(u, Wanted::Asked(request, 0));
            }
            Call::Give(u) => self.set_wish(u, Wanted::Nothing),
        }
    }

    #[tactic(auto, using(crate::proofs::Told::wish_told))]
    fn told(&mut self, u: u32, a: Answer)
        requires { T (may_tell (board_of self.old) u a) }
        ensures does { board_of self.new ≡ told u a (board_of self.old) }
        ensures paces { SamePaces self.old self.new }
    {
        let w = self.wishes[u as usize];
        self.set_wish(u, w.once_told(a));
        if is_not_good(a) {
            self.try_anew();
        }
    }

    fn ticks(&mut self)
        requires { T (in_time (board_of self.old)) }
        ensures does { board_of self.new ≡ ticked (board_of self.old) }
        ensures paces { SamePaces self.old self.new }
    {
        let waiting = let_tick_pass(&mut self.wishes);
        self.quiet = if waiting { 0 } else { one_more(self.quiet) };
        self.left = ASKINGS;
    }
}
