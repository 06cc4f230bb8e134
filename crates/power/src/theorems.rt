// Theorems on the least, each named by a contract.
ghost use Rattle.power.specs.Least.{LeastJoins, FewerCanBe, LeastIsTight, TightIsLeast};
ghost use Rattle.power.specs.Examples.{ExamplesHold};

// Two wants together: for each part the larger of both leasts.
pub fn least_joins() -> u8
    ensures { LeastJoins }
{
    0
}

// What can be, still can be with fewer wants.
pub fn fewer_can_be() -> u8
    ensures { FewerCanBe }
{
    0
}

// The least is pinned down: wanted, needed, and no higher than that.
pub fn least_is_tight() -> u8
    ensures { (LeastIsTight) × (TightIsLeast) }
{
    0
}

// The definitions, at work on a small plan.
pub fn examples_hold() -> u8
    ensures { ExamplesHold }
{
    0
}
