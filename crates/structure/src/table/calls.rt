// Filling a table from any structure, and asking it.
ghost use Rattle.structure.specs.Meanings.{Same};
ghost use Rattle.structure.specs.Tables.{tabled};
ghost use Rattle.std.proofs.Common.{rules};

use super::{Table, WORDS};
use crate::order::Order;
use crate::structure::Structure;

impl Table {
    // Asks `structure` every state once.
    pub fn fill<S: Structure>(structure: &S) -> Self
        ensures { Same (tabled result.order.parts result.words) (S.Structure.meaning structure.now) }
    {
        let order = Order::of(structure);
        let mut words = [0; WORDS];
        // A state is a number and no place of a list; its word and digit follow from it.
        for state in 0..1u32 << order.parts() {
            if structure.works(state) {
                let at = (state / 64) as usize;
                words[at] |= 1 << (state % 64);
            }
        }
        Table { order, words }
    }
}

impl Structure for Table {
    ghost meaning = { λ s. tabled s.order.parts s.words };

    ghost sized = { Prim.search rules };

    ghost monotone = { λ s. s.monotone };

    fn order(&self) -> usize {
        self.order.parts()
    }

    fn works(&self, state: u32) -> bool {
        let state = self.order.known(state);
        let word = self.words[(state / 64) as usize];
        (word >> (state % 64)) % 2 == 1
    }
}
