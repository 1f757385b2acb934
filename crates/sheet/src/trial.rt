// A part withdrawn on trial: the sheet is lent to the trial, and is exactly as before when it ends, on every way out.
ghost use Rattle.std.specs.Prelude.{◌≡◌};
ghost use Rattle.sheet.specs.Sheets.{page};
ghost use Rattle.sheet.specs.Trials.{on_trial, trial_over};

use crate::sheet::Sheet;

pub struct Trial<'a> {
    sheet: &'a mut Sheet,
    // The part whose mark the trial made.
    marked: Option<usize>,
}

impl<'a> Trial<'a> {
    // Where `check_withdraw` refuses, the sheet stays as it is.
    pub fn begin(sheet: &'a mut Sheet, part: usize) -> Trial<'a>
        ensures lent { result.sheet.ghost_name ≡ sheet.entry.ghost_name }
        ensures during { page result.sheet.now ≡ on_trial part (page sheet.old) }
        ensures after { trial_over result.marked (page result.sheet.now) ≡ page sheet.old }
    {
        let marked = sheet.withdraw(part).is_ok().then_some(part);
        Trial { sheet, marked }
    }

    pub fn sheet(&self) -> &Sheet
        ensures { result.now ≡ self.now.sheet.now }
    {
        self.sheet
    }
}

impl Drop for Trial<'_> {
    fn drop(self)
        ensures { page self.exit.0.now ≡ trial_over self.entry.marked (page self.entry.sheet.now) }
    {
        let Trial { sheet, marked } = self;
        if let Some(part) = marked {
            let _ = sheet.put_back(part);
        }
    }
}
