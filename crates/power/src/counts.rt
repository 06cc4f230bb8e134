// Counts that stop at 64: how often a part was tried, and for how many ticks it has been quiet.
ghost use Rattle.std.specs.Prelude.{◌≡◌, ◌+◌, if◌then◌else◌, nat_lt};

pub fn one_more(n: u32) -> u32
    ensures { result ≡ (if nat_lt n 64 then n + 1 else 64) }
{
    if n < 64 { n + 1 } else { 64 }
}
