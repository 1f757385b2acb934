// All minimal paths or all minimal cuts of a structure, into lent places.
ghost use Rattle.std.specs.Prelude.{◌≡◌, length, slice_set};
ghost use Rattle.analysis.specs.Minimal.{minimal_sets};
ghost use Rattle.analysis.specs.Places.{laid, done_or_too_few};

use crate::listing_of::ListingOf;
use crate::refusal::Refusal;
use crate::role::Role;
use crate::room::enough;
use structure::structure::Structure;

// As many as 16 parts can have: those of 8-of-16.
pub const MOST_SETS: usize = 12870;

// Where the places are too few, they hold the first sets. They are lent, so the answer counts them, as that of a tally or a signature does.
pub fn minimal_sets<S: Structure>(
    structure: &S,
    role: Role,
    places: &mut [u16],
) -> Result<usize, Refusal>
    ensures answer { result ≡ done_or_too_few (length (minimal_sets role (S.Structure.meaning structure.now))) places.old }
    ensures places { places.new ≡ laid (minimal_sets role (S.Structure.meaning structure.now)) places.old }
{
    let mut needed = 0;
    for (at, set) in ListingOf::new(structure, role).enumerate() {
        put(places, at, set);
        needed = at + 1;
    }
    enough(needed, places)
}

// Past the last place nothing is written.
fn put(places: &mut [u16], at: usize, value: u16)
    ensures { places.new ≡ slice_set places.old at value }
{
    // The contract of `get_mut` of a slice leaves open what is written through it.
    if at < places.len() {
        places[at] = value;
    }
}
