// Reads a script from standard input, runs it, and prints its lines.
#![tactic(auto)]

use script::console::run_from;
use script::run::Run;
use std::io;

fn main(rt: HostRuntime) -> io::Result<()> {
    run_from(&rt, &mut rt.stdin(), &mut Run::new())
}
