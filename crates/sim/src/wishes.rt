// What becomes of users' wishes when they are told something, and as time goes by.
ghost use Rattle.std.specs.Prelude.{◌≡◌, ℕ, ◌<◌, true, length, slice_index_or};
ghost use Rattle.power.specs.Board.{older, young, is_asked, some'};
ghost use Rattle.power.specs.declared.state.Wanted.TheVariants.{Nothing};
ghost use Rattle.sim.specs.Boards.{wish_of};

use power::state::Wanted;

// The same wish, a tick later.
fn a_tick_older(wanted: Wanted<u32>) -> Wanted<u32>
    requires { young (wish_of wanted) ≡ true }
    ensures { wish_of result ≡ older (wish_of wanted) }
{
    match wanted {
        Wanted::Asked(request, age) => Wanted::Asked(request, age + 1),
        other => other,
    }
}

// All wishes, a tick later; whether one of them was asked.
pub(crate) fn let_tick_pass(wishes: &mut [Wanted<u32>; 32]) -> bool
    requires { (k : ℕ) → k < 32 → young (wish_of (slice_index_or wishes.old k Nothing)) ≡ true }
    ensures asked { result ≡ some' 32 (λ k. is_asked (wish_of (slice_index_or wishes.old k Nothing))) }
    ensures long { length wishes.new ≡ 32 }
    ensures each { (k : ℕ) → wish_of (slice_index_or wishes.new k Nothing) ≡ older (wish_of (slice_index_or wishes.old k Nothing)) }
{
    let waiting = wishes.iter().any(|wanted| wanted.is_asked());
    for wanted in wishes.iter_mut() {
        *wanted = a_tick_older(*wanted);
    }
    waiting
}
