// What is asked of the station as it stands; the book is left as it is.
ghost use Rattle.std.specs.Prelude.{◌≡◌};
ghost use Rattle.analysis.specs.Weighed.{Weighing};
ghost use Rattle.sheet.specs.Weakest.{Names, weakest_of};
ghost use Rattle.book.specs.Books.{opened, entered, stands, book_importance};

use super::Book;
use analysis::refusal::Refusal as AnalysisRefusal;
use analysis::weigh::weigh;
use sheet::importance::importance;
use sheet::refusal::Refusal;
use sheet::weakest::weakest;
use weight::Weight;

impl Book {
    pub fn importance(&self, part: usize) -> Result<u64, Refusal>
        ensures { result ≡ book_importance (opened self.now) (entered self.now) part }
    {
        importance(&self.table, &self.entries.sheet, part)
    }

    pub fn weigh<W: Weight>(
        &self,
        up: &[W],
        down: &[W],
        slots: &mut [W],
    ) -> Result<(), AnalysisRefusal>
        ensures { Weighing W.Weight (stands self.now) up.now down.now slots.old slots.new result }
    {
        weigh(self, up, down, slots)
    }

    // The trials are made on a copy of the sheet.
    pub fn weakest(&self) -> Option<usize>
        ensures answer { result ≡ weakest_of (opened self.now) (entered self.now).page }
        ensures names { Names (opened self.now) (entered self.now).page result }
    {
        let mut sheet = self.entries.sheet;
        weakest(&self.table, &mut sheet).unwrap_or(None)
    }
}
