// What the parts of a board in memory draw now.
ghost use Rattle.std.specs.Prelude.{◌≡◌, ◌<◌};
ghost use Rattle.power.specs.Board.{level_of, draw_at, drawn};
ghost use Rattle.sim.specs.Boards.{board_of};

use super::state::Sim;

impl Sim {
    // What part x draws.
    fn draws(&self, x: u32) -> u32
        requires { x < 64 }
        ensures { result ≡ draw_at (board_of self.now) x (level_of ((board_of self.now).part x)) }
    {
        self.plan.draw(x, self.parts[x as usize].state.level())
    }

    // What all parts draw together.
    pub fn drawn(&self) -> u64
        ensures { result ≡ drawn (board_of self.now) (board_of self.now).part }
    {
        (0..self.plan.parts).map(|x| u64::from(self.draws(x))).sum()
    }
}
