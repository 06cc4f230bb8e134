// A board in memory is `Parts`. What leaves the paces alone says so by a clause: a method of the trait takes the whole board.
// A part is read, and put back whole: of a `&mut self.parts[x]`, in a struct that has a ghost field, the borrow checker makes no proof.
ghost use Rattle.std.specs.Prelude.{◌≡◌, ℕ, ◌<◌, T, if◌then◌else◌};
ghost use Rattle.power.specs.Board.{Board, put, MayRaise, MayLower, MayLevel, Tries, raised, lowered, levelled, is_rising};
ghost use Rattle.sim.specs.Boards.{board_of};
ghost use Rattle.sim.specs.Paces.{pace_of, next_pace_of, ready, waited, SamePaces};

use super::pace::{after_asking, is_ready};
use super::state::{Sim, SimPart};
use power::Parts;
use power::counts::one_more;
use power::state::PartState;
use power::types::Level;

impl Parts for Sim {
    ghost board = { board_of };

    fn parts(&self) -> u32 {
        self.plan.parts
    }

    fn needs(&self, x: u32) -> u32 {
        self.plan.needs(x)
    }

    fn need_on(&self, x: u32, k: u32) -> u32 {
        self.plan.need(x, k).on
    }

    fn need_least(&self, x: u32, k: u32, l: u32) -> u32 {
        self.plan.need(x, k).least[l as usize]
    }

    fn need_most(&self, x: u32, k: u32) -> u32 {
        self.plan.need(x, k).most
    }

    fn draw(&self, x: u32, l: u32) -> u32 {
        self.plan.draw(x, l)
    }

    fn gives(&self) -> u32 {
        self.plan.gives
    }

    // Its next pace is in effect from now on.
    fn raise(&mut self, x: u32)
        requires { MayRaise (board_of self.old) x }
        ensures does { board_of self.new ≡ raised x (board_of self.old) }
        ensures now { (z : ℕ) → pace_of self.new z ≡ put x (next_pace_of self.old x) (pace_of self.old) z }
        ensures next { (z : ℕ) → next_pace_of self.new z ≡ next_pace_of self.old z }
    {
        self.left -= 1;
        let part = self.parts[x as usize];
        self.parts[x as usize] = SimPart {
            state: PartState::Rising(()),
            tried: 0,
            pace: part.next_pace,
            ..part
        };
    }

    // Whether it is good is a matter of its pace.
    fn good(&mut self, x: u32) -> bool
        requires { (0 < (board_of self.old).left) × ((x < (board_of self.old).parts) × (T (is_rising ((board_of self.old).part x)))) }
        ensures does { Tries (board_of self.old) x result (board_of self.new) }
        ensures is { result ≡ ready (pace_of self.old x) }
        ensures now { (z : ℕ) → pace_of self.new z ≡ (if result then pace_of self.old z else put x (waited (pace_of self.old x)) (pace_of self.old) z) }
        ensures next { (z : ℕ) → next_pace_of self.new z ≡ next_pace_of self.old z }
    {
        self.left -= 1;
        let part = self.parts[x as usize];
        if is_ready(part.pace) {
            self.parts[x as usize] = SimPart {
                state: PartState::On(Level { n: 1 }),
                ..part
            };
            return true;
        }
        self.parts[x as usize] = SimPart {
            tried: one_more(part.tried),
            pace: after_asking(part.pace),
            ..part
        };
        false
    }

    fn lower(&mut self, x: u32)
        requires { MayLower (board_of self.old) x }
        ensures does { board_of self.new ≡ lowered x (board_of self.old) }
        ensures paces { SamePaces self.old self.new }
    {
        self.left -= 1;
        let part = self.parts[x as usize].anew();
        self.parts[x as usize] = SimPart {
            state: PartState::Off,
            ..part
        };
    }

    fn level(&mut self, x: u32, v: u32)
        requires { MayLevel (board_of self.old) x v }
        ensures does { board_of self.new ≡ levelled x v (board_of self.old) }
        ensures paces { SamePaces self.old self.new }
    {
        self.left -= 1;
        let part = self.parts[x as usize];
        self.parts[x as usize] = SimPart {
            state: PartState::On(Level { n: v }),
            ..part
        };
    }
}
