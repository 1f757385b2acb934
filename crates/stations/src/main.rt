// Asks the library about the known stations, the longest lists and every coherent station of four parts, and prints its answers.
#![tactic(auto)]

mod fault;
mod four_parts;
mod largest;
mod row;
mod small;

use fault::Fault;

fn main(rt: HostRuntime) -> Result<(), Fault> {
    small::print_all(&rt)?;
    largest::print_all(&rt)?;
    four_parts::print_all(&rt)
}
