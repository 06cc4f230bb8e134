// Reads plans and scripts from standard input, and prints what happens. It uses no heap.
#![tactic(auto)]

use play::program::run;
use std::io;

fn main(rt: HostRuntime) -> io::Result<()> {
    run(&mut rt.stdin(), &mut rt.stdout())
}
