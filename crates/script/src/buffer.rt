// A line in memory of its own. What is done with it stands in another file (`filling.rt`): what says of a line what it holds speaks of this type.
ghost use Rattle.std.specs.Prelude.{◌≡◌, ◌≤◌, length, IfSome};
ghost use Rattle.std.proofs.Props.{props};

// The first `len` bytes, unless the line is longer than there is room for: then it has lost its bytes, and has no length. So `Buffered` relates it to
// them, and no model says them. An array with a length beside it, since it is copied, which the vector of a fixed room isn't.
#[derive(Clone, Copy)]
pub struct LineBuffer {
    pub(crate) bytes: [u8; 4096],
    pub(crate) len: Option<usize>,
    ghost within: { IfSome len (λ n. n ≤ 4096) } by { Prim.hlevel props },
    ghost long: { length bytes ≡ 4096 },
}
