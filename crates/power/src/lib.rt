// The board, whoever uses it, the keeper of its power, and the days between.
#![tactic(auto)]

ghost use Rattle.std.specs.Prelude.{◌≡◌, ℕ, ◌+◌, ◌<◌, ◌≤◌, true, false, T, length};
ghost use Rattle.power.specs.Board.{Board, MayRaise, MayLower, MayLevel, Tries, raised, lowered, levelled, is_rising, on_of, least_of, most_of, draw_at, why, called, may_tell, told, in_time, ticked, AtStart};
ghost use Rattle.power.specs.Promise.{LeastServes, LeastIsLeast, MoreIsMore, CannotBe};
ghost use Rattle.power.specs.Kept.{Kept, Worked};

pub mod aims;
mod askings;
pub mod counts;
mod course;
mod datasheet;
mod down;
mod drive;
mod driver;
mod grants;
pub mod guard;
mod idle;
mod knowledge;
pub mod least;
pub mod levels;
mod mirror;
pub mod not_done;
pub mod refusal;
mod rota;
mod serve;
pub mod state;
pub mod theorems;
pub mod theorems_walk;
mod tick;
mod turn;
pub mod types;
mod up;
mod users;
mod wishes;

pub use crate::driver::ASKINGS;
pub use crate::knowledge::Keeper;
use crate::state::{Driver, Turn, Wishes};

// Bare numbers in calls and answers: this text is fixed.

// Users 0 to 31, parts 0 to 63, levels 1 to 15.
#[derive(Clone, Copy)]
pub enum Call {
    Want(u32, u32, u32),
    Give(u32),
}

#[derive(Clone, Copy)]
pub enum Answer {
    Done,
    No(u32),
}

#[derive(Clone, Copy)]
pub enum Next {
    Calls(Call),
    Tick,
    Over,
}

// What may be done to the board. What it requires is its data sheet, and that nobody loses what they were granted.
pub trait Parts {
    ghost board: { Self → Board };

    fn parts(&self) -> u32
        ensures { result ≡ (board self.now).parts };
    // how many others it needs; the kth of these, what that must be at least when it is at level l, and at most
    fn needs(&self, x: u32) -> u32
        ensures { result ≡ length ((board self.now).needs x) };

    fn need_on(&self, x: u32, k: u32) -> u32
        requires { k < length ((board self.now).needs x) }
        ensures { result ≡ on_of k ((board self.now).needs x) };

    fn need_least(&self, x: u32, k: u32, l: u32) -> u32
        requires { (k < length ((board self.now).needs x)) × (l < 16) }
        ensures { result ≡ least_of k l ((board self.now).needs x) };

    fn need_most(&self, x: u32, k: u32) -> u32
        requires { k < length ((board self.now).needs x) }
        ensures { result ≡ most_of k ((board self.now).needs x) };
    // what it draws at level l; what the board gives
    fn draw(&self, x: u32, l: u32) -> u32
        requires { l < 16 }
        ensures { result ≡ draw_at (board self.now) x l };

    fn gives(&self) -> u32
        ensures { result ≡ (board self.now).gives };

    // it begins to rise; is it good yet; it's off; it's at another level
    fn raise(&mut self, x: u32)
        requires { MayRaise (board self.old) x }
        ensures { board self.new ≡ raised x (board self.old) };

    fn good(&mut self, x: u32) -> bool
        requires { (0 < (board self.old).left) × ((x < (board self.old).parts) × (T (is_rising ((board self.old).part x)))) }
        ensures { Tries (board self.old) x result (board self.new) };

    fn lower(&mut self, x: u32)
        requires { MayLower (board self.old) x }
        ensures { board self.new ≡ lowered x (board self.old) };

    fn level(&mut self, x: u32, v: u32)
        requires { MayLevel (board self.old) x v }
        ensures { board self.new ≡ levelled x v (board self.old) };
}

// Who uses it, which the keeper doesn't see.
pub trait World: Parts {
    fn next(&mut self) -> Next
        ensures { Self.board self.new ≡ Self.board self.old };
    // the call is taken, or turned away by a number
    fn said(&mut self, c: Call, no: u32)
        requires { no ≡ why c (Self.board self.old) }
        ensures { Self.board self.new ≡ called c (Self.board self.old) };
    // a user is told: what may be, that's the promise
    fn told(&mut self, u: u32, a: Answer)
        requires { T (may_tell (Self.board self.old) u a) }
        ensures { Self.board self.new ≡ told u a (Self.board self.old) };

    fn ticks(&mut self)
        requires { T (in_time (Self.board self.old)) }
        ensures { Self.board self.new ≡ ticked (Self.board self.old) };
}

impl Keeper {
    // at the start: all parts are off, and nobody wants anything
    pub fn new<P: Parts>(b: &P) -> Keeper
        requires starts { AtStart (P.board b.now) }
        ensures { Kept result (P.board b.now) }
    {
        Keeper {
            parts: b.parts(),
            driver: Driver::new(),
            wishes: Wishes::new(),
            turn: Turn::new(),
            idle: 0,
        }
    }

    // a call; 0, or why it's turned away, as a number: the world is told one
    pub fn call(&mut self, c: Call) -> u32
        ensures { (b : Board) → Kept self.old b → (result ≡ why c b) × Kept self.new (called c b) }
    {
        let taken = match c {
            Call::Want(u, x, l) => self.want(u, x, l),
            Call::Give(u) => self.give(u),
        };
        taken.err().map_or(0, u32::from)
    }

    // a tick's work; one user may be told something
    pub fn work<P: Parts>(&mut self, b: &mut P) -> Option<(u32, Answer)>
        requires soon { 1024 ≤ (P.board b.old).left }
        requires kept { Kept self.old (P.board b.old) }
        ensures { Worked result self.new (P.board b.new) }
    {
        self.driver.left = ASKINGS;
        if let Some(u) = self.head() {
            return self.attend(b, u);
        }
        self.be_idle(b);
        None
    }
}

pub fn keeper_is_small() -> bool
    ensures { T result }
{
    std::mem::size_of::<Keeper>() <= 65536
}

// The text of `days` is fixed, its loop too.

// THE MAIN PROMISE. Whatever is wanted and given back, and whatever doesn't rise.
pub fn days<W: Parts + World>(w: &mut W, many: u64)
    requires starts { AtStart (W.board w.old) }
{
    let mut k = Keeper::new(w);
    let mut n: u64 = 0;
    while n < many {
        n += 1;
        match w.next() {
            Next::Calls(c) => {
                let no = k.call(c);
                w.said(c, no);
            }
            Next::Tick => {
                if let Some((u, a)) = k.work(w) {
                    w.told(u, a);
                }
                w.ticks();
            }
            Next::Over => {
                return;
            }
        }
    }
}

// What is promised beside, each a theorem that a contract names.
pub fn least_serves() -> u8
    ensures { (LeastServes) × (LeastIsLeast) }
{
    0
}

pub fn more_is_more() -> u8
    ensures { (MoreIsMore) × (CannotBe) }
{
    0
}
