// A guard, for code that uses the keeper by itself and for one user at a time: what that user wants is given back when the guard is dropped.
ghost use Rattle.std.specs.Prelude.{◌≡◌, ◌<◌, ◌≤◌, T};
ghost use Rattle.std.specs.Result.{IsErrAnd};
ghost use Rattle.power.specs.Board.{Board, is_none, why, called};
ghost use Rattle.power.specs.Refused.{code_of};
ghost use Rattle.power.specs.Kept.{Kept};
ghost use Rattle.power.specs.declared.Call.TheVariants.{Want, Give};

use crate::Keeper;
use crate::refusal::Refusal;

// What a user wants, waiting or granted. However the function that has it is left, it's given back.
pub struct Held<'a> {
    keeper: &'a mut Keeper,
    user: u32,
}

impl Drop for Held<'_> {
    fn drop(self)
        ensures { (b : Board) → Kept self.entry.keeper.now b → Kept self.exit.0.now (called (Give self.entry.user) b) }
    {
        let Held { keeper, user } = self;
        let _ = keeper.give(user);
    }
}

impl<'a> Held<'a> {
    // To be made once `want` was taken.
    pub fn of(keeper: &'a mut Keeper, user: u32) -> Held<'a>
        ensures user { result.user ≡ user }
        ensures same { result.keeper.ghost_name ≡ keeper.entry.ghost_name }
        ensures kept { result.keeper.now ≡ keeper.old }
    {
        Held { keeper, user }
    }
}

// How it's used: x is wanted at l while something is read. The user, who had nothing, has nothing after, also where the reading failed.
pub fn with_held<F: FnOnce() -> Result<u32, Refusal>>(
    k: &mut Keeper,
    u: u32,
    x: u32,
    l: u32,
    reading: F,
) -> Result<u32, Refusal>
    requires may_read { F.IsAlwaysCallable reading }
    ensures turned_away { (b : Board) → Kept k.old b → 0 < why (Want u x l) b → IsErrAnd result (λ r. code_of r ≡ why (Want u x l) b) }
    ensures read { (b : Board) → Kept k.old b → why (Want u x l) b ≡ 0 → F.post reading result }
    ensures kept { (b : Board) → Kept k.old b → T (is_none (b.wish u)) → Kept k.new (called (Give u) (called (Want u x l) b)) }
    ensures nothing { (b : Board) → T (is_none (b.wish u)) → T (is_none ((called (Give u) (called (Want u x l) b)).wish u)) }
{
    k.want(u, x, l)?;
    let _held = Held::of(k, u);
    reading()
}

// The same, with what was read before.
pub fn read_with(
    k: &mut Keeper,
    u: u32,
    x: u32,
    l: u32,
    reading: Result<u32, Refusal>,
) -> Result<u32, Refusal>
    ensures turned_away { (b : Board) → Kept k.old b → 0 < why (Want u x l) b → IsErrAnd result (λ r. code_of r ≡ why (Want u x l) b) }
    ensures read { (b : Board) → Kept k.old b → why (Want u x l) b ≡ 0 → result ≡ reading }
    ensures kept { (b : Board) → Kept k.old b → T (is_none (b.wish u)) → Kept k.new (called (Give u) (called (Want u x l) b)) }
    ensures nothing { (b : Board) → T (is_none (b.wish u)) → T (is_none ((called (Give u) (called (Want u x l) b)).wish u)) }
{
    with_held(k, u, x, l, || reading)
}
