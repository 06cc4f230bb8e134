// A plan, and the least for what is wanted of it.
ghost use Rattle.std.specs.Prelude.{◌≡◌, ℕ, ◌<◌, ◌≤◌, length, slice_index};
ghost use Rattle.power.specs.Tables.{at};
ghost use Rattle.export.specs.Refused.{code_of};
ghost use Rattle.export.specs.declared.plan.Refused.TheVariants as refused;

use play::plans::read_board;
use power::least::least;
use power::types::{CantBe, Levels};
use script::lines::SliceLines;
use sim::state::Sim;

// Why C is refused: not a plan, or one that makes no sense; or what is wanted can't be.
#[derive(Clone, Copy, Debug, PartialEq, Eq)]
pub enum Refused {
    NoPlan,
    CantBe,
}

// the number that C is told
impl From<Refused> for u32 {
    ghost from_gives = { λ e n. n ≡ code_of e };

    fn from(e: Refused) -> u32 {
        match e {
            Refused::NoPlan => 1,
            Refused::CantBe => 5,
        }
    }
}

impl From<CantBe> for Refused {
    ghost from_gives = { λ _ e. e ≡ refused.CantBe };

    fn from(_e: CantBe) -> Refused {
        Self::CantBe
    }
}

// Copies levels from the front of a slice to the front of another, as many as both have.
fn copy_front(to: &mut [u32], from: &[u32])
    ensures length { length to.new ≡ length to.old }
    ensures front { (x : ℕ) → x < length to.old → x < length from.now → slice_index to.new x ≡ slice_index from.now x }
    ensures rest { (x : ℕ) → length from.now ≤ x → slice_index to.new x ≡ slice_index to.old x }
{
    let n = to.len().min(from.len());
    to[..n].copy_from_slice(&from[..n]);
}

// A level for each part: those of a slice, and 0 past its end.
fn levels_of(wants: &[u32]) -> Levels
    ensures { (x : ℕ) → x < 64 → at result x ≡ slice_index wants.now x }
{
    let mut levels = Levels::new();
    copy_front(&mut levels.of, wants);
    levels
}

// Writes the levels of the first parts, as many as there is room for.
fn write_levels(levels: &Levels, out: &mut [u32])
    ensures { (x : ℕ) → x < 64 → x < length out.new → slice_index out.new x ≡ at levels.now x }
{
    copy_front(out, &levels.of);
}

// The board of a plan, if it is one.
#[inline(always)]
fn board(plan: &[u8]) -> Result<Sim, Refused> {
    let mut lines = SliceLines { rest: plan };
    read_board(&mut lines).ok_or(Refused::NoPlan)
}

fn write_least(plan: &[u8], wants: &[u32], levels: &mut [u32]) -> Result<(), Refused> {
    let sim = board(plan)?;
    let found = least(&sim, &levels_of(wants))?;
    write_levels(&found, levels);
    Ok(())
}

// Does a plan make sense? 0, or the number of a refusal.
#[unsafe(no_mangle)]
pub extern "C" fn tizgulk_check(plan: &[u8]) -> u32 {
    match board(plan) {
        Ok(_) => 0,
        Err(e) => e.into(),
    }
}

// The least levels of a plan's parts, where wants[x] is the level wanted of part x, 0 if it isn't wanted: 0, or the number of a refusal.
#[unsafe(no_mangle)]
pub extern "C" fn tizgulk_least(plan: &[u8], wants: &[u32], levels: &mut [u32]) -> u32 {
    write_least(plan, wants, levels).err().map_or(0, u32::from)
}
