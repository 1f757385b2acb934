// What is read of a row; the station is asked by the first two alone.
ghost use Rattle.std.specs.Prelude.{◌≡◌};
ghost use Rattle.sheet.specs.Rows.{counts_as_failed, rating_in_force};

use super::Row;

impl Row {
    pub fn counts_as_failed(&self) -> bool
        ensures { result ≡ counts_as_failed self.now }
    {
        self.withdrawn
    }

    pub fn rating_in_force(&self) -> u32
        ensures { result ≡ rating_in_force self.now }
    {
        self.rating
    }

    pub fn price(&self) -> u16
        ensures { result ≡ self.now.price }
    {
        self.price
    }
}
