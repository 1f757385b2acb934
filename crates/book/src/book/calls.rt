// Opening a book, the calls on one part of it, and its figure.
ghost use Rattle.std.specs.Prelude.{◌≡◌};
ghost use Rattle.structure.specs.Meanings.{Same};
ghost use Rattle.sheet.specs.Sheets.{rated, priced, taken_out, put_back};
ghost use Rattle.book.specs.Books.{Called, opened, entered, book_figure};
ghost use Rattle.book.specs.Entries.{blank, altered, repriced};

use super::Book;
use crate::entries::Entries;
use crate::figure::Figure;
use sheet::figure_of_rows::figure_at;
use sheet::refusal::Refusal;
use sheet::sheet::Sheet;
use structure::structure::Structure;
use structure::table::Table;

impl Book {
    // Asks `structure` every state once, and never again.
    pub fn open<S: Structure>(structure: &S) -> Self
        ensures opened { Same (opened result) (S.Structure.meaning structure.now) }
        ensures entered { entered result ≡ blank (S.Structure.meaning structure.now).order }
    {
        let entries = Entries {
            sheet: Sheet::of(structure),
            failed: 0,
            held: None,
        };
        Book {
            table: Table::fill(structure),
            entries,
        }
    }

    pub fn rate(&mut self, part: usize, rating: u32) -> Result<(), Refusal>
        ensures { Called (λ w. altered (rated part rating w.page) w) self.old self.new result }
    {
        self.entries.rate(part, rating)
    }

    pub fn price(&mut self, part: usize, price: u32) -> Result<(), Refusal>
        ensures { Called (λ w. repriced (priced part price w.page) w) self.old self.new result }
    {
        self.entries.price(part, price)
    }

    pub fn withdraw(&mut self, part: usize) -> Result<(), Refusal>
        ensures { Called (λ w. altered (taken_out part w.page) w) self.old self.new result }
    {
        self.entries.withdraw(part)
    }

    pub fn put_back(&mut self, part: usize) -> Result<(), Refusal>
        ensures { Called (λ w. altered (put_back part w.page) w) self.old self.new result }
    {
        self.entries.put_back(part)
    }

    pub fn figure(&mut self) -> Figure
        ensures { Called (book_figure (opened self.old)) self.old self.new result }
    {
        if let Some(units) = self.entries.held {
            return Figure { units, held: true };
        }
        let units = figure_at(&self.table, &self.entries.sheet);
        self.entries.held = Some(units);
        Figure { units, held: false }
    }
}
