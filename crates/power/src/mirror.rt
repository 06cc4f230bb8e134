// What the keeper knows of each part: made, read, written, and all tried anew.
ghost use Rattle.std.specs.Prelude.{◌≡◌, ◌≤◌, replicate, slice_set};
ghost use Rattle.power.specs.Board.{level_of};
ghost use Rattle.power.specs.Mirrors.{part_of, TriedIs, state_at, Anew};
ghost use Rattle.power.specs.declared.state.PartState.TheVariants.{Off};

use crate::state::{Mirror, PartState, Tried};
use crate::types::PartId;

impl<T> PartState<T> {
    // 0 if it's off, and 1 while it rises
    #[tactic(auto, unfolding(crate::specs::Board::level_of))]
    pub fn level(&self) -> u32
        ensures is { result ≡ level_of (part_of self.now) }
        ensures top { result ≤ 15 }
    {
        match self {
            PartState::Off => 0,
            PartState::Rising(_) => 1,
            PartState::On(l) => l.n,
        }
    }
}

impl PartState<Tried> {
    // The same, and tried anew if it rises.
    fn anew(self) -> PartState<Tried>
        ensures part { part_of result ≡ part_of self }
        ensures tried { TriedIs result 0 }
    {
        match self {
            PartState::Rising(_) => PartState::Rising(Tried { n: 0 }),
            other => other,
        }
    }
}

impl Mirror {
    pub(crate) fn new() -> Mirror
        ensures { result.states ≡ replicate 64 Off }
    {
        Mirror {
            states: [PartState::Off; 64],
        }
    }

    pub(crate) fn get(&self, x: PartId) -> PartState<Tried>
        ensures { result ≡ state_at self.now x.n }
    {
        self.states[x.n as usize]
    }

    pub(crate) fn put(&mut self, x: PartId, s: PartState<Tried>)
        ensures { self.new.states ≡ slice_set self.old.states x.n s }
    {
        self.states[x.n as usize] = s;
    }

    pub(crate) fn level(&self, x: PartId) -> u32
        ensures { result ≡ level_of (part_of (state_at self.now x.n)) }
    {
        self.get(x).level()
    }

    // Every part that rises is tried anew.
    pub(crate) fn anew(&mut self)
        ensures { Anew self.old self.new }
    {
        for s in self.states.iter_mut() {
            *s = s.anew();
        }
    }
}
