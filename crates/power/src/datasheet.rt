// A board's data sheet as code reads it: the board, and what is known of its plan.
ghost use Rattle.std.specs.Prelude.{ℕ, ◌<◌, ◌≤◌, T};
ghost use Rattle.power.specs.Board.{good_plan};
ghost use Rattle.power.specs.Tables.{at};

use crate::Parts;
use crate::types::{Levels, PartId};

// A board of at most 64 parts, whose plan makes sense.
#[derive(Drop)]
pub(crate) struct DataSheet<'b, P: Parts> {
    pub(crate) board: &'b P,
    ghost few: { (P.board board.now).parts ≤ 64 },
    ghost plan: { T (good_plan (P.board board.now)) },
}

// One of its parts.
#[derive(Drop)]
pub(crate) struct PartSheet<'b, P: Parts> {
    pub(crate) board: &'b P,
    pub(crate) part: PartId,
    ghost plan: { T (good_plan (P.board board.now)) },
    ghost there: { part.n < (P.board board.now).parts },
}

// Levels of 15 at most, at which a board tells what is drawn.
#[derive(Drop)]
pub(crate) struct LowLevels {
    pub(crate) of: Levels,
    ghost low: { (x : ℕ) → at of x ≤ 15 },
}
