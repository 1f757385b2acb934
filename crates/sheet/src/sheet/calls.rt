// Starting a sheet, and the calls on one part of it.
ghost use Rattle.std.specs.Prelude.{◌≡◌, ◌<◌, if◌then◌else◌, None, Ok, Err, IfOk, ◌==◌};
ghost use Rattle.sheet.specs.declared.refusal.Refusal.TheVariants.{Orders};
ghost use Rattle.sheet.specs.Rows.{allowed};
ghost use Rattle.sheet.specs.Sheets.{page, blank_page, part_refused, withdraw_refused, started, rated, priced, taken_out, put_back};

use super::Sheet;
use crate::refusal::Refusal;
use crate::row::Row;
use structure::order::Order;
use structure::structure::{MAX_ORDER, Structure};

impl Sheet {
    pub fn new() -> Self
        ensures { page result ≡ blank_page 1 }
    {
        Self::blank(Order::one())
    }

    // Nothing written yet, and a row for each part of the structure.
    pub fn of<S: Structure>(structure: &S) -> Self
        ensures { page result ≡ blank_page (S.Structure.meaning structure.now).order }
    {
        Self::blank(Order::of(structure))
    }

    pub fn start(&mut self, order: usize) -> Result<(), Refusal>
        ensures { (result, page self.new) ≡ started order (page self.old) }
    {
        *self = Self::blank(Order::try_from(order)?);
        Ok(())
    }

    fn blank(order: Order) -> Self
        ensures { page result ≡ blank_page order.parts }
    {
        Sheet {
            order,
            rows: [Row::new(); MAX_ORDER],
        }
    }

    pub fn rate(&mut self, part: usize, rating: u32) -> Result<(), Refusal>
        ensures { (result, page self.new) ≡ rated part rating (page self.old) }
    {
        self.check_part(part)?;
        self.rows[part].rate(rating)
    }

    pub fn price(&mut self, part: usize, price: u32) -> Result<(), Refusal>
        ensures { (result, page self.new) ≡ priced part price (page self.old) }
    {
        self.check_part(part)?;
        self.rows[part].set_price(price)
    }

    pub fn withdraw(&mut self, part: usize) -> Result<(), Refusal>
        ensures { (result, page self.new) ≡ taken_out part (page self.old) }
    {
        self.check_part(part)?;
        self.rows[part].withdraw()
    }

    pub fn put_back(&mut self, part: usize) -> Result<(), Refusal>
        ensures { (result, page self.new) ≡ put_back part (page self.old) }
    {
        self.check_part(part)?;
        self.rows[part].put_back()
    }

    // Answers as `withdraw` would.
    pub fn check_withdraw(&self, part: usize) -> Result<(), Refusal>
        ensures { result ≡ allowed (withdraw_refused part (page self.now)) }
    {
        self.check_part(part)?;
        self.rows[part].check_withdraw()
    }

    pub(crate) fn check_order<S: Structure>(&self, structure: &S) -> Result<(), Refusal>
        ensures answer { result ≡ (if (S.Structure.meaning structure.now).order == (page self.now).order then Ok tt else Err Orders) }
        ensures same { IfOk result (λ _. (S.Structure.meaning structure.now).order ≡ (page self.now).order) }
    {
        if structure.order() != self.order() {
            return Err(Refusal::Orders);
        }
        Ok(())
    }

    pub(crate) fn check_part(&self, part: usize) -> Result<(), Refusal>
        ensures answer { result ≡ allowed (part_refused (λ _. None) part (page self.now)) }
        ensures there { IfOk result (λ _. part < (page self.now).order) }
    {
        if part >= self.order.parts() {
            return Err(Refusal::Part);
        }
        Ok(())
    }
}
