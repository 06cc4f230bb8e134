// A level for each part: made, read, written and raised.
ghost use Rattle.std.specs.Prelude.{◌≡◌, ℕ, replicate, slice_set};
ghost use Rattle.power.specs.Board.{and_also};
ghost use Rattle.power.specs.Tables.{at};

use crate::types::{Levels, PartId};

impl Levels {
    // All parts off.
    pub fn new() -> Levels
        ensures { result.of ≡ replicate 64 0 }
    {
        Levels { of: [0; 64] }
    }

    pub fn get(&self, x: PartId) -> u32
        ensures { result ≡ at self.now x.n }
    {
        self.of[x.n as usize]
    }

    pub fn put(&mut self, x: PartId, l: u32)
        ensures { self.new.of ≡ slice_set self.old.of x.n l }
    {
        self.of[x.n as usize] = l;
    }

    // x at l too, if it isn't as high.
    pub fn also(&mut self, x: PartId, l: u32)
        ensures { (z : ℕ) → at self.new z ≡ and_also (at self.old) x.n l z }
    {
        self.put(x, self.get(x).max(l));
    }
}
