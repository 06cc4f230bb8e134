// The program `buoy` on input that is no plan and no script: each line gets a clear answer, and nothing is lost.
// It is `buoy` again, which can't be called: a stored input has a program of its own.
#![tactic(auto)]

use play::program::run;
use std::io;

fn main(rt: HostRuntime) -> io::Result<()> {
    run(&mut rt.stdin(), &mut rt.stdout())
}
