// A listing of one structure, as an iterator.
ghost use Rattle.std.specs.Prelude.{◌≡◌};
ghost use Rattle.std.specs.Iterator.{YieldsFirst, item_count};
ghost use Rattle.structure.specs.Meanings.{Meaning};
ghost use Rattle.analysis.specs.Listing.{ahead_of};
ghost use Rattle.analysis.specs.Minimal.{minimal_sets};

use crate::listing::Listing;
use crate::role::Role;
use structure::structure::Structure;

#[derive(Drop)]
#[derive_where(Clone, Copy)]
pub struct ListingOf<'a, S> {
    structure: &'a S,
    listing: Listing,
}

impl<'a, S: Structure> ListingOf<'a, S> {
    pub fn new(structure: &'a S, role: Role) -> Self
        ensures { (meaning : S → Meaning) → ahead_of meaning result ≡ minimal_sets role (meaning structure.now) }
    {
        ListingOf {
            structure,
            listing: Listing::new(role),
        }
    }
}

impl<'a, S: Structure> Iterator for ListingOf<'a, S> {
    type Item = u16;

    ghost next_gives = { YieldsFirst (ahead_of S.Structure.meaning) };

    ghost remaining = { item_count (ahead_of S.Structure.meaning) };

    fn next(&mut self) -> Option<u16> {
        self.listing.next(self.structure)
    }
}
