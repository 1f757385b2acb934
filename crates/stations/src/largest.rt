// The longest lists that there are: those of 8-of-16.
use crate::fault::Fault;
use analysis::minimal_sets::{MOST_SETS, minimal_sets};
use analysis::refusal::Refusal;
use analysis::role::Role;
use std::io;
use structure::k_out_of_n::KOutOfN;
use structure::structure::Structure;

// One place less than is needed.
const TOO_FEW: usize = MOST_SETS - 1;

pub fn print_all(rt: &HostRuntime) -> Result<(), Fault> {
    let station = KOutOfN::new(16, 8)?;
    print_too_few(rt, &station)?;
    print_lists(rt, &station)
}

fn print_lists<S: Structure>(rt: &HostRuntime, station: &S) -> Result<(), Fault> {
    let mut places = [0; MOST_SETS];
    let paths = minimal_sets(station, Role::Path, &mut places)?;
    let cuts = minimal_sets(station, Role::Cut, &mut places)?;
    println!(rt; "8-of-16: {paths} minimal paths, {cuts} minimal cuts")?;
    Ok(())
}

// The refusal, and what the first and the last place then hold.
fn print_too_few<S: Structure>(rt: &HostRuntime, station: &S) -> io::Result<()> {
    let mut places = [0; TOO_FEW];
    let answer = minimal_sets(station, Role::Path, &mut places);
    let first = places[0];
    let last = places[TOO_FEW - 1];
    match answer {
        Ok(count) => println!(rt; "8-of-16 at {TOO_FEW} places: {count} minimal paths"),
        Err(why @ Refusal::TooFewPlaces { needed }) => println!(rt;
            "8-of-16 at {TOO_FEW} places: refusal {}, needed {needed}, first {first}, last {last}",
            why.number()
        ),
        Err(why) => println!(rt; "8-of-16 at {TOO_FEW} places: refusal {}", why.number()),
    }
}
