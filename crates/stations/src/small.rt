// The small stations whose figures are known, a line for each.
use crate::fault::Fault;
use crate::row::Row;
use analysis::minimal_sets::minimal_sets;
use analysis::role::Role;
use analysis::signature::signature;
use analysis::swing::swing;
use analysis::tally::tally;
use known::bridge::bridge;
use known::draw::draw_paths;
use sheet::cheapest::cheapest;
use sheet::figure_of_rows::figure_at;
use sheet::sheet::Sheet;
use structure::cut_list::CutList;
use structure::k_out_of_n::KOutOfN;
use structure::structure::Structure;

// As many entries as the signature of five parts has.
const NUMBERS: usize = 7;

// As many minimal sets as five parts can have.
const SETS: usize = 10;

pub fn print_all(rt: &HostRuntime) -> Result<(), Fault> {
    print_bridge(rt)?;
    print_rated(rt)?;
    print_constant(rt)
}

fn print_bridge(rt: &HostRuntime) -> Result<(), Fault> {
    let bridge = bridge()?;
    let tally: Row<u64, NUMBERS> = Row::of(|places| tally(&bridge, places))?;
    let cuts: Row<u16, SETS> = Row::of(|places| minimal_sets(&bridge, Role::Cut, places))?;
    println!(rt; "bridge: path numbers{tally}")?;
    print_signature(rt, "bridge: signature", &bridge)?;
    println!(rt; "bridge: minimal cuts{cuts}")?;
    print_swings(rt, "bridge: swings", &bridge)?;
    print_figure(rt, "bridge, all rated 32768: units", &bridge, 32768)?;
    print_cheapest(
        rt,
        "bridge, prices 5 1 1 5 9: cheapest",
        &bridge,
        &[5, 1, 1, 5, 9],
    )
}

// Stations at the ends of the ratings.
fn print_rated(rt: &HostRuntime) -> Result<(), Fault> {
    print_figure(rt, "2-of-2, all rated 1: units", &KOutOfN::new(2, 2)?, 1)?;
    print_figure(rt, "3-of-3, all rated 1: units", &KOutOfN::new(3, 3)?, 1)?;
    let single = draw_paths(1, &[1])?;
    print_figure(rt, "order 1, path 1, rated 65536: units", &single, 65536)
}

// The station that never works, and the one that always does.
fn print_constant(rt: &HostRuntime) -> Result<(), Fault> {
    let no_path = draw_paths(2, &[])?;
    print_signature(rt, "no path, order 2: signature", &no_path)?;
    print_cheapest(rt, "no path, order 2: cheapest", &no_path, &[3, 4])?;
    let mut no_cut = CutList::new();
    no_cut.start(2)?;
    print_signature(rt, "no cut, order 2: signature", &no_cut)?;
    print_cheapest(rt, "no cut, order 2: cheapest", &no_cut, &[3, 4])
}

fn print_signature<S: Structure>(rt: &HostRuntime, word: &str, station: &S) -> Result<(), Fault> {
    let signature: Row<u64, NUMBERS> = Row::of(|places| signature(station, places))?;
    println!(rt; "{word}{signature}")?;
    Ok(())
}

fn print_swings<S: Structure>(rt: &HostRuntime, word: &str, station: &S) -> Result<(), Fault> {
    print!(rt; "{word}")?;
    // Here and below the part is what is asked about, and no place of a list.
    for part in 0..station.order() {
        let states = swing(station, part)?;
        print!(rt; " {states}")?;
    }
    println!(rt; "")?;
    Ok(())
}

// The figure with every part rated alike.
fn print_figure<S: Structure>(
    rt: &HostRuntime,
    word: &str,
    station: &S,
    rating: u32,
) -> Result<(), Fault> {
    let mut sheet = Sheet::of(station);
    for part in 0..station.order() {
        sheet.rate(part, rating)?;
    }
    let units = figure_at(station, &sheet);
    println!(rt; "{word} {units}")?;
    Ok(())
}

// The least price total of a working state, at a price for each part.
fn print_cheapest<S: Structure>(
    rt: &HostRuntime,
    word: &str,
    station: &S,
    prices: &[u32],
) -> Result<(), Fault> {
    let mut sheet = Sheet::of(station);
    for (part, &price) in prices.iter().enumerate() {
        sheet.price(part, price)?;
    }
    match cheapest(station, &sheet)? {
        Some(total) => println!(rt; "{word} {total}")?,
        None => println!(rt; "{word} absent")?,
    }
    Ok(())
}
