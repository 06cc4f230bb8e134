// Plans are built part by part, and parts need by need.
ghost use Rattle.std.specs.Prelude.{◌≡◌, ◌+◌, ◌<◌, [], ◌∷◌, ◌++◌, length, map, replicate, MatchResult, slice_index};
ghost use Rattle.power.specs.Board.{put};
ghost use Rattle.sim.specs.Plans.{need_of, needs_of, needs_at, draw_of, draws_at, Tells};

use super::plan::{Plan, PlanFault, PlanNeed, PlanPart};

impl PlanPart {
    // A part that needs nothing, and draws nothing.
    pub fn none() -> PlanPart
        ensures { (needs_of result ≡ []) × (result.draw ≡ replicate 16 0) }
    {
        let nothing = PlanNeed {
            on: 0,
            least: [0; 16],
            most: 0,
        };
        PlanPart {
            count: 0,
            needs: [nothing; 4],
            draw: [0; 16],
        }
    }

    // One need more, or a refusal where there are four. (`Plan` has the same of parts: of another array, with another room and another fault.)
    pub fn add(&mut self, need: PlanNeed) -> Result<(), PlanFault>
        ensures { MatchResult result (λ _. (needs_of self.new ≡ needs_of self.old ++ (need_of need ∷ [])) × (self.new.draw ≡ self.old.draw)) (λ _. (self.old.count ≡ 4) × (self.new ≡ self.old)) }
    {
        if self.count == 4 {
            return Err(PlanFault::TooManyNeeds);
        }
        self.needs[self.count as usize] = need;
        self.count += 1;
        Ok(())
    }

    // What it needs.
    pub fn needs(&self) -> &[PlanNeed]
        ensures { map need_of result.now ≡ needs_of self.now }
    {
        &self.needs[..self.count as usize]
    }

    // It draws that, at each level.
    pub fn set_draw(&mut self, draw: [u32; 16])
        ensures { (needs_of self.new ≡ needs_of self.old) × (self.new.draw ≡ draw) }
    {
        self.draw = draw;
    }
}

impl Plan {
    // A plan with no parts, that gives as much as can be said.
    pub fn none() -> Plan
        ensures { (result.parts ≡ 0) × (result.gives ≡ 4294967295) }
    {
        Plan {
            parts: 0,
            part: [PlanPart::none(); 64],
            gives: u32::MAX,
        }
    }

    // How many others part x needs.
    pub fn needs(&self, x: u32) -> u32
        ensures { result ≡ length (needs_at self.now.part x) }
    {
        self.part.get(x as usize).map_or(0, |part| part.count)
    }

    // The kth of these.
    pub fn need(&self, x: u32, k: u32) -> &PlanNeed
        requires { k < length (needs_at self.now.part x) }
        ensures { Tells (need_of result.now) k (needs_at self.now.part x) }
    {
        let i = k as usize;
        &self.part[x as usize].needs()[i]
    }

    // What part x draws at level l.
    pub fn draw(&self, x: u32, l: u32) -> u32
        requires { l < 16 }
        ensures { result ≡ slice_index (draws_at self.now.part x) l }
    {
        self.part
            .get(x as usize)
            .map_or(0, |part| part.draw[l as usize])
    }

    // So much is given.
    pub fn set_gives(&mut self, gives: u32)
        ensures { (self.new.parts ≡ self.old.parts) × (self.new.part ≡ self.old.part) × (self.new.gives ≡ gives) }
    {
        self.gives = gives;
    }

    // One part more, or a refusal where there are 64.
    pub fn add(&mut self, part: PlanPart) -> Result<(), PlanFault>
        ensures { MatchResult result (λ _. (self.new.parts ≡ self.old.parts + 1) × (needs_at self.new.part ≡ put self.old.parts (needs_of part) (needs_at self.old.part)) × (draws_at self.new.part ≡ put self.old.parts (draw_of part) (draws_at self.old.part)) × (self.new.gives ≡ self.old.gives)) (λ _. (self.old.parts ≡ 64) × (self.new ≡ self.old)) }
    {
        if self.parts == 64 {
            return Err(PlanFault::TooManyParts);
        }
        self.part[self.parts as usize] = part;
        self.parts += 1;
        Ok(())
    }
}
