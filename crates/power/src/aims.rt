// Levels to aim at for one want: the ceiling, least with what is granted, and the goal, least for the want alone.
ghost use Rattle.std.specs.Prelude.{ℕ, ◌≤◌, T};
ghost use Rattle.power.specs.Board.{good_plan, and_also};
ghost use Rattle.power.specs.Tables.{at};
ghost use Rattle.power.specs.Found.{Finds, FindsAims};

use crate::Parts;
use crate::datasheet::DataSheet;
use crate::state::Request;
use crate::types::{Aims, CantBe, Levels};

impl<P: Parts> DataSheet<'_, P> {
    // The least for what is wanted, and for a request too.
    fn least_with(&self, mut want: Levels, request: Request) -> Result<Levels, CantBe>
        ensures { Finds (P.board self.now.board.now) (and_also (at want) request.part.n request.level.n) result }
    {
        want.also(request.part, request.level.n);
        self.least(&want)
    }

    // The least for a request alone.
    fn least_alone(&self, request: Request) -> Result<Levels, CantBe>
        ensures { Finds (P.board self.now.board.now) (and_also (λ (z : ℕ). 0) request.part.n request.level.n) result }
    {
        self.least_with(Levels::new(), request)
    }

    // What to aim at for a request, if it can be with what is granted.
    fn aims(&self, granted: Levels, request: Request) -> Result<Aims, CantBe>
        ensures { FindsAims (P.board self.now.board.now) (at granted) request.part.n request.level.n result }
    {
        let goal = self.least_alone(request)?;
        let ceiling = self.least_with(granted, request)?;
        Ok(Aims { ceiling, goal })
    }
}

// The same, of a board. It asks for what a data sheet's type says, since callers have a board and no sheet.
pub fn aims<P: Parts>(b: &P, granted: Levels, request: Request) -> Result<Aims, CantBe>
    requires few { (P.board b.now).parts ≤ 64 }
    requires plan { T (good_plan (P.board b.now)) }
    ensures { FindsAims (P.board b.now) (at granted) request.part.n request.level.n result }
{
    DataSheet { board: b }.aims(granted, request)
}
