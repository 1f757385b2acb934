// Every coherent station of four parts, all of them relevant, up to the numbering of the parts.
use crate::fault::Fault;
use crate::row::Row;
use analysis::minimal_sets::minimal_sets;
use analysis::role::Role;
use analysis::signature::signature;
use known::draw::draw_paths;
use structure::dual::Dual;
use structure::path_list::PathList;

const PARTS: usize = 4;

// As many minimal sets as four parts can have.
const SETS: usize = 6;

// As many entries as their signature has.
const NUMBERS: usize = PARTS + 2;

// Their minimal paths, from all parts in a row to all side by side.
static PATHS: [&[u16]; 20] = [
    &[15],
    &[7, 11],
    &[7, 11, 13],
    &[7, 11, 13, 14],
    &[3, 13],
    &[3, 13, 14],
    &[3, 5, 14],
    &[3, 12],
    &[3, 5, 9],
    &[3, 5, 9, 14],
    &[3, 5, 10],
    &[3, 5, 6, 9],
    &[3, 5, 10, 12],
    &[3, 5, 6, 9, 10],
    &[3, 5, 6, 9, 10, 12],
    &[1, 14],
    &[1, 6, 10],
    &[1, 6, 10, 12],
    &[1, 2, 12],
    &[1, 2, 4, 8],
];

pub fn print_all(rt: &HostRuntime) -> Result<(), Fault> {
    for paths in &PATHS {
        print_station(rt, &draw_paths(PARTS, paths)?)?;
    }
    Ok(())
}

// Its minimal paths, minimal cuts and signature, and whether its minimal paths are its dual's minimal cuts.
fn print_station(rt: &HostRuntime, station: &PathList) -> Result<(), Fault> {
    let paths: Row<u16, SETS> = Row::of(|places| minimal_sets(station, Role::Path, places))?;
    let cuts: Row<u16, SETS> = Row::of(|places| minimal_sets(station, Role::Cut, places))?;
    let signature: Row<u64, NUMBERS> = Row::of(|places| signature(station, places))?;
    let dual = Dual::new(station);
    let dual_cuts: Row<u16, SETS> = Row::of(|places| minimal_sets(&dual, Role::Cut, places))?;
    let verdict = if paths == dual_cuts {
        "agrees"
    } else {
        "differs"
    };
    println!(rt; "paths{paths}, cuts{cuts}, signature{signature}, dual {verdict}")?;
    Ok(())
}
