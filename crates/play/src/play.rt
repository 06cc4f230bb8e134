// Plays an input: plans, each with its script.
ghost use Rattle.std.specs.Prelude.{IfSome};
ghost use Rattle.power.specs.Board.{AtStart};
ghost use Rattle.sim.specs.Boards.{board_of};

use super::draft::{Draft, Step};
use super::reader::MOST_LINES;
use super::session::Session;
use super::stage::Stage;
use power::days;
use script::event::{Event, Say};
use script::line::Line;
use script::lines::Lines;
use sim::state::Sim;

impl<L: Lines, S: Say> Session<'_, '_, L, S> {
    // The plan up to its `run`, if there is one.
    fn read_plan(&mut self) -> Option<Draft> {
        let mut draft = Draft::new();
        for _ in 0..MOST_LINES {
            match self.next()?.ok().and_then(|line| draft.heed(line)) {
                Some(Step::More) => {}
                Some(Step::Whole) => return Some(draft),
                None => self.unclear(),
            }
        }
        None
    }

    // Passes over all lines up to the next `new`; whether there is one.
    fn skip_to_new(&mut self) -> bool {
        for _ in 0..MOST_LINES {
            match self.next() {
                Some(Ok(Line::New)) => return true,
                Some(_) => {}
                None => return false,
            }
        }
        false
    }

    // Plays a script on a board; whether another plan follows.
    fn run(&mut self, sim: Sim) -> bool
        requires { AtStart (board_of sim) }
    {
        let mut stage = Stage::new(sim, self);
        days(&mut stage, u64::MAX);
        stage.renewed
    }

    // Plays a plan with its script; whether another follows.
    fn play_plan(&mut self) -> bool {
        let Some(draft) = self.read_plan() else {
            return false;
        };
        match draft.board() {
            Some(sim) => self.run(sim),
            None => {
                self.say(Event::NoPlan);
                self.skip_to_new()
            }
        }
    }
}

// Plays an input to its end.
pub fn play<L: Lines, S: Say>(lines: &mut L, out: &mut S) {
    let mut session = Session::new(lines, out);
    for _ in 0..MOST_LINES {
        if !session.play_plan() {
            return;
        }
    }
}
