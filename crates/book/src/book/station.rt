// A book is itself a structure: the opened one with the withdrawn parts counted as failed.
ghost use Rattle.book.specs.Books.{stands, opened};
ghost use Rattle.structure.specs.LayersLemmas.{hold_monotone};
ghost use Rattle.sheet.specs.Sheets.{page, failed_parts};
ghost use Rattle.std.proofs.Common.{rules};

use super::Book;
use structure::hold::Hold;
use structure::structure::Structure;

impl Structure for Book {
    ghost meaning = { λ book. stands book };

    ghost sized = { Prim.search rules };

    ghost monotone = { λ s. hold_monotone (failed_parts (page s.entries.sheet)) (opened s) s.table.monotone };

    fn order(&self) -> usize {
        self.table.order()
    }

    fn works(&self, state: u32) -> bool {
        Hold::new(&self.table, self.entries.failed).works(state)
    }
}
