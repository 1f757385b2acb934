// What changes in a book: its sheet, the parts withdrawn by it, and the figure held since it was last asked for.
ghost use Rattle.std.specs.Prelude.{◌≡◌};
ghost use Rattle.std.specs.Fn.{FnOnceReturnsAtMut};
ghost use Rattle.sheet.specs.Sheets.{page, rated, priced, taken_out, put_back};
ghost use Rattle.book.specs.Entries.{written, altered, repriced};

use sheet::refusal::Refusal;
use sheet::sheet::Sheet;

#[derive(Clone, Copy)]
pub(crate) struct Entries {
    pub(crate) sheet: Sheet,
    pub(crate) failed: u16,
    pub(crate) held: Option<u64>,
}

impl Entries {
    pub(crate) fn rate(&mut self, part: usize, rating: u32) -> Result<(), Refusal>
        ensures { (result, written self.new) ≡ altered (rated part rating (written self.old).page) (written self.old) }
    {
        self.alter(|sheet| sheet.rate(part, rating))
    }

    pub(crate) fn price(&mut self, part: usize, price: u32) -> Result<(), Refusal>
        ensures { (result, written self.new) ≡ repriced (priced part price (written self.old).page) (written self.old) }
    {
        self.sheet.price(part, price)
    }

    pub(crate) fn withdraw(&mut self, part: usize) -> Result<(), Refusal>
        ensures { (result, written self.new) ≡ altered (taken_out part (written self.old).page) (written self.old) }
    {
        self.alter(|sheet| sheet.withdraw(part))
    }

    pub(crate) fn put_back(&mut self, part: usize) -> Result<(), Refusal>
        ensures { (result, written self.new) ≡ altered (put_back part (written self.old).page) (written self.old) }
    {
        self.alter(|sheet| sheet.put_back(part))
    }

    // Makes a change of the sheet that may move the figure.
    fn alter<F: FnOnce(&mut Sheet) -> Result<(), Refusal>>(
        &mut self,
        change: F,
    ) -> Result<(), Refusal>
        requires { F.IsAlwaysCallable change }
        ensures changed { FnOnceReturnsAtMut F.FnOnce change self.old.sheet result self.new.sheet }
        ensures altered { (result, written self.new) ≡ altered (result, page self.new.sheet) (written self.old) }
    {
        change(&mut self.sheet)?;
        self.failed = self.sheet.withdrawn();
        self.held = None;
        Ok(())
    }
}
