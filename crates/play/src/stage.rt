// A board in memory whose users' calls are lines, and which says what is done to it and told.
ghost use Rattle.std.specs.Prelude.{◌≡◌, false};
ghost use Rattle.sim.specs.Boards.{board_of};
ghost use Rattle.play.specs.Stages.{calls_for, ticks_after};

use super::reader::MOST_LINES;
use super::session::Session;
use power::{Answer, Call, Next, Parts, World};
use script::event::{Event, Say};
use script::line::Line;
use script::lines::Lines;
use sim::state::Sim;

// `ticks` are still to come before the next line; `renewed` says that the script ended with `new`.
#[derive(Drop)]
pub struct Stage<'s, 'a, 'b, L, S> {
    pub sim: Sim,
    pub session: &'s mut Session<'a, 'b, L, S>,
    pub ticks: u32,
    pub renewed: bool,
}

impl<'s, 'a, 'b, L: Lines, S: Say> Stage<'s, 'a, 'b, L, S> {
    pub fn new(sim: Sim, session: &'s mut Session<'a, 'b, L, S>) -> Stage<'s, 'a, 'b, L, S>
        ensures sim { result.sim ≡ sim }
        ensures session { (result.session.ghost_name ≡ session.entry.ghost_name) × (result.session.now ≡ session.old) }
        ensures ticks { result.ticks ≡ 0 }
        ensures renewed { result.renewed ≡ false }
    {
        Stage {
            sim,
            session,
            ticks: 0,
            renewed: false,
        }
    }

    // The least for what is granted. There always is one: what was granted can be.
    fn say_least(&mut self)
        ensures { (self.new.sim ≡ self.old.sim) × (self.new.ticks ≡ self.old.ticks) }
    {
        match self.sim.least_granted() {
            Ok(levels) => self
                .session
                .say_levels(&levels.of[..self.sim.plan.parts as usize]),
            Err(_) => self.session.unclear(),
        }
    }

    // What a line of the script calls for now, if anything.
    fn heed(&mut self, line: Line) -> Option<Next>
        ensures board { board_of self.new.sim ≡ board_of self.old.sim }
        ensures calls { result ≡ calls_for line }
        ensures ticks { self.new.ticks ≡ ticks_after line self.old.ticks }
    {
        match line {
            Line::Want(u, x, l) => return Some(Next::Calls(Call::Want(u, x, l))),
            Line::Give(u) => return Some(Next::Calls(Call::Give(u))),
            Line::Tick(n) => {
                if n > 0 {
                    self.ticks = n - 1;
                    return Some(Next::Tick);
                }
            }
            Line::New => {
                self.renewed = true;
                return Some(Next::Over);
            }
            Line::Bad(x) if x < self.sim.parts() => self.sim.bad(x),
            Line::Slow(x, n) if x < self.sim.parts() => self.sim.slow(x, n),
            Line::Least => self.say_least(),
            Line::Drawn => self.session.say(Event::Drawn(self.sim.drawn())),
            _ => self.session.unclear(),
        }
        None
    }
}

impl<L: Lines, S: Say> Parts for Stage<'_, '_, '_, L, S> {
    ghost board = { λ s. board_of s.sim };

    fn parts(&self) -> u32 {
        self.sim.parts()
    }

    fn needs(&self, x: u32) -> u32 {
        self.sim.needs(x)
    }

    fn need_on(&self, x: u32, k: u32) -> u32 {
        self.sim.need_on(x, k)
    }

    fn need_least(&self, x: u32, k: u32, l: u32) -> u32 {
        self.sim.need_least(x, k, l)
    }

    fn need_most(&self, x: u32, k: u32) -> u32 {
        self.sim.need_most(x, k)
    }

    fn draw(&self, x: u32, l: u32) -> u32 {
        self.sim.draw(x, l)
    }

    fn gives(&self) -> u32 {
        self.sim.gives()
    }

    fn raise(&mut self, x: u32) {
        self.sim.raise(x);
        self.session.say(Event::Raise(x));
    }

    fn good(&mut self, x: u32) -> bool {
        let good = self.sim.good(x);
        if good {
            self.session.say(Event::Good(x));
        }
        good
    }

    fn lower(&mut self, x: u32) {
        self.sim.lower(x);
        self.session.say(Event::Lower(x));
    }

    fn level(&mut self, x: u32, v: u32) {
        self.sim.level(x, v);
        self.session.say(Event::Level(x, v));
    }
}

impl<L: Lines, S: Say> World for Stage<'_, '_, '_, L, S> {
    fn next(&mut self) -> Next {
        if self.ticks > 0 {
            self.ticks -= 1;
            return Next::Tick;
        }
        for _ in 0..MOST_LINES {
            let Some(said) = self.session.next() else {
                return Next::Over;
            };
            match said {
                Err(_) => self.session.unclear(),
                Ok(line) => {
                    if let Some(next) = self.heed(line) {
                        return next;
                    }
                }
            }
        }
        Next::Over
    }

    // `no` is a number, 0 where the call was taken: so the trait says it.
    fn said(&mut self, c: Call, no: u32) {
        self.sim.said(c, no);
        self.session.say(if no == 0 {
            Event::Taken
        } else {
            Event::Away(no)
        });
    }

    fn told(&mut self, u: u32, a: Answer) {
        self.sim.told(u, a);
        self.session.say(match a {
            Answer::Done => Event::Done(u),
            Answer::No(k) => Event::No(u, k),
        });
    }

    fn ticks(&mut self) {
        self.sim.ticks();
    }
}
