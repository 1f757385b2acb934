// Runs stored scripts one after another, by the call that the program `book_station` makes, and prints the lines of each under its name.
#![tactic(auto)]

use book_script::console::run_from;
use book_script::run::Run;
use std::{fs, io};

const NAMES: [&str; 6] = [
    "empty",
    "longest",
    "too-long",
    "faults",
    "cut-short",
    "sixteen",
];

fn main(rt: HostRuntime) -> io::Result<()> {
    for name in NAMES {
        println!(rt; "# {name}")?;
        run_from(&rt, &mut fs::open(&rt, name)?, &mut Run::new())?;
    }
    Ok(())
}
