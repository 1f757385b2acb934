// Goes through the minimal sets of a structure in the order in which they are listed.
ghost use Rattle.std.specs.Prelude.{◌≡◌};
ghost use Rattle.structure.specs.Meanings.{Meaning};
ghost use Rattle.analysis.specs.Listing.{ahead, first, others};
ghost use Rattle.analysis.specs.Minimal.{minimal_sets};

use crate::minimal::is_minimal;
use crate::role::Role;
use structure::structure::Structure;

// Holds no structure: each step is lent one, which may have changed since the last, or be another.
#[derive(Clone, Copy)]
pub struct Listing {
    role: Role,
    next: u32,
}

impl Listing {
    pub fn new(role: Role) -> Self
        ensures { (m : Meaning) → ahead result m ≡ minimal_sets role m }
    {
        Listing { role, next: 0 }
    }

    pub fn next<S: Structure>(&mut self, structure: &S) -> Option<u16>
        ensures item { result ≡ first (ahead self.old (S.Structure.meaning structure.now)) }
        ensures rest { ahead self.new (S.Structure.meaning structure.now) ≡ others (ahead self.old (S.Structure.meaning structure.now)) }
    {
        let end = 1 << structure.order();
        let role = self.role;
        let Some(set) = (self.next..end).find(|set| is_minimal(structure, role, *set)) else {
            // A step past the last set then asks the structure nothing.
            self.next = self.next.max(end);
            return None;
        };
        self.next = set + 1;
        // A set of 16 parts fits: `try_from` would add an end that never comes.
        Some(set as u16)
    }
}
