// What users call: they want a part at a level, and give it back.
ghost use Rattle.std.specs.Prelude.{◌≡◌, ◌≤◌};
ghost use Rattle.power.specs.Board.{Board, why, called};
ghost use Rattle.power.specs.Kept.{Kept};
ghost use Rattle.power.specs.Refused.{number_of};
ghost use Rattle.power.specs.declared.Call.TheVariants.{Want, Give};

use crate::Keeper;
use crate::refusal::Refusal;
use crate::state::{Request, Wanted};
use crate::types::{Level, PartId, UserId};

impl Keeper {
    pub fn want(&mut self, u: u32, x: u32, l: u32) -> Result<(), Refusal>
        ensures { (b : Board) → Kept self.old b → (number_of result ≡ why (Want u x l) b) × Kept self.new (called (Want u x l) b) }
    {
        let user = UserId::try_from(u)?;
        let part = PartId::try_from(x)?;
        if part.n >= self.parts {
            return Err(Refusal::NoSuch);
        }
        let level = Level::try_from(l)?;
        let Wanted::Nothing = self.wishes.get(user) else {
            return Err(Refusal::Already);
        };
        self.wishes.ask(user, Request { part, level });
        self.idle = 0;
        Ok(())
    }

    pub fn give(&mut self, u: u32) -> Result<(), Refusal>
        ensures { (b : Board) → Kept self.old b → (number_of result ≡ why (Give u) b) × Kept self.new (called (Give u) b) }
    {
        let user = UserId::try_from(u)?;
        if let Wanted::Nothing = self.wishes.get(user) {
            return Err(Refusal::Nothing);
        }
        self.wishes.take_back(user);
        self.turn.over(user);
        self.idle = 0;
        Ok(())
    }
}
