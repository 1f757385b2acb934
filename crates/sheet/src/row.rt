// One part's row of a sheet: its rating in 1/65,536, its price, and whether it is withdrawn.
ghost use Rattle.std.specs.Prelude.{◌≡◌};
ghost use Rattle.sheet.specs.Rows.{blank_row, allowed, row_withdraw_refused, row_rated, row_priced, row_taken_out, row_put_back};

use crate::refusal::Refusal;

pub mod reading;

// The rating of a part that never fails.
pub const SURE: u32 = 65536;

pub const MAX_PRICE: u32 = u16::MAX as u32;

#[derive(Clone, Copy)]
pub struct Row {
    rating: u32,
    price: u16,
    withdrawn: bool,
}

impl Row {
    pub(crate) fn new() -> Self
        ensures { result ≡ blank_row }
    {
        Row {
            rating: 0,
            price: 0,
            withdrawn: false,
        }
    }

    pub(crate) fn rate(&mut self, rating: u32) -> Result<(), Refusal>
        ensures { (result, self.new) ≡ row_rated rating self.old }
    {
        if rating > SURE {
            return Err(Refusal::Rating);
        }
        if self.withdrawn {
            return Err(Refusal::RatedWithdrawn);
        }
        self.rating = rating;
        Ok(())
    }

    pub(crate) fn set_price(&mut self, price: u32) -> Result<(), Refusal>
        ensures { (result, self.new) ≡ row_priced price self.old }
    {
        if price > MAX_PRICE {
            return Err(Refusal::Price);
        }
        // Not by `try_from`, which would leave the constant to say what it likes.
        self.price = price as u16;
        Ok(())
    }

    // Answers as `withdraw` would.
    pub(crate) fn check_withdraw(&self) -> Result<(), Refusal>
        ensures { result ≡ allowed (row_withdraw_refused self.now) }
    {
        if self.withdrawn {
            return Err(Refusal::Withdrawn);
        }
        Ok(())
    }

    pub(crate) fn withdraw(&mut self) -> Result<(), Refusal>
        ensures { (result, self.new) ≡ row_taken_out self.old }
    {
        self.check_withdraw()?;
        self.withdrawn = true;
        Ok(())
    }

    pub(crate) fn put_back(&mut self) -> Result<(), Refusal>
        ensures { (result, self.new) ≡ row_put_back self.old }
    {
        if !self.withdrawn {
            return Err(Refusal::InService);
        }
        self.withdrawn = false;
        Ok(())
    }
}
