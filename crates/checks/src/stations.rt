// Structures, piles of layers and their minimal sets.
use analysis::listing::Listing;
use analysis::listing_of::ListingOf;
use analysis::minimal_sets::minimal_sets;
use analysis::redraw::redraw_cuts;
use analysis::refusal::Refusal;
use analysis::role::Role;
use analysis::swing::swing;
use analysis::tally::tally;
use analysis::verdict::verdict;
use analysis::weighed_tally::weighed_tally;
use std::test::Fail;
use structure::dual::Dual;
use structure::hold::Hold;
use structure::k_out_of_n::KOutOfN;
use structure::pair::{Pair, Rule};
use structure::path_list::PathList;
use structure::structure::Structure;
use structure::table::Table;

#[test]
fn two_of_three_is_its_own_dual(rt: HostRuntime) -> Result<(), Fail> {
    let twice = Dual::new(Dual::new(KOutOfN::new(3, 2)?));
    assert!(rt; twice.works(0b101));
    let dual = Dual::new(twice.cancel());
    assert!(rt; dual.works(0b101));
    assert!(rt; !dual.works(0b100));
    Ok(())
}

#[test]
fn a_table_of_a_pile(rt: HostRuntime) -> Result<(), Fail> {
    let held = Hold::new(KOutOfN::new(3, 2)?, 0b100);
    let pile = Pair::new(Rule::Either, held, KOutOfN::new(4, 4)?);
    let table = Table::fill(&pile);
    assert_eq!(rt; table.order(), 4);
    assert!(rt; table.works(0b0011));
    assert!(rt; !table.works(0b0110));
    assert!(rt; table.works(0xfff));
    Ok(())
}

#[test]
fn cuts_of_two_of_three(rt: HostRuntime) -> Result<(), Fail> {
    let station = KOutOfN::new(3, 2)?;
    let mut places = [9; 4];
    assert_eq!(rt; minimal_sets(&station, Role::Cut, &mut places), Ok(3));
    assert_eq!(rt; places, [3, 5, 6, 9]);
    let mut few = [0; 2];
    assert_eq!(rt;
        minimal_sets(&station, Role::Path, &mut few),
        Err(Refusal::TooFewPlaces { needed: 3 })
    );
    assert_eq!(rt; few, [3, 5]);
    let redrawn = redraw_cuts(&station)?;
    assert!(rt; redrawn.works(0b110));
    assert!(rt; !redrawn.works(0b010));
    Ok(())
}

// Made before there is a station, which then changes, and another one takes its place.
#[test]
fn a_listing_goes_on(rt: HostRuntime) -> Result<(), Fail> {
    let mut listing = Listing::new(Role::Path);
    let mut drawn = PathList::new();
    drawn.start(3)?;
    drawn.add(0b001)?;
    assert_eq!(rt; listing.next(&drawn), Some(0b001));
    drawn.add(0b110)?;
    assert_eq!(rt; listing.next(&drawn), Some(0b110));
    assert_eq!(rt; listing.next(&drawn), None);
    assert_eq!(rt; listing.next(&drawn), None);
    assert_eq!(rt; listing.next(&KOutOfN::new(4, 1)?), Some(0b1000));
    assert_eq!(rt; ListingOf::new(&drawn, Role::Cut).next(), Some(0b011));
    Ok(())
}

#[test]
fn what_two_of_three_weighs(rt: HostRuntime) -> Result<(), Fail> {
    let station = KOutOfN::new(3, 2)?;
    let mut counts = [7; 5];
    assert_eq!(rt; tally(&station, &mut counts), Ok(4));
    assert_eq!(rt; counts, [0, 0, 3, 1, 7]);
    let weighed = weighed_tally(&station);
    assert_eq!(rt; weighed[2], 3);
    assert_eq!(rt; weighed[3], 1);
    assert_eq!(rt; swing(&station, 1), Ok(2));
    assert_eq!(rt; swing(&station, 3), Err(Refusal::Part));
    let verdict = verdict(&station);
    assert!(rt; verdict.coherent);
    assert_eq!(rt; verdict.relevant, 0b111);
    Ok(())
}
