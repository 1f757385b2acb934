// Reading a sheet.
ghost use Rattle.std.specs.Prelude.{◌≡◌, ℕ, ◌≤◌, length, map, take, slice_index};
ghost use Rattle.sheet.specs.Cheapest.{prices_of};
ghost use Rattle.sheet.specs.Rows.{rating_in_force};
ghost use Rattle.sheet.specs.Sheets.{page, row_if_any, failed_parts, HasFailed};

use super::Sheet;
use crate::row::Row;
use std::array;
use structure::structure::MAX_ORDER;

impl Sheet {
    pub fn order(&self) -> usize
        ensures { result ≡ (page self.now).order }
    {
        self.order.parts()
    }

    pub fn row(&self, part: usize) -> Option<Row>
        ensures { result ≡ row_if_any part (page self.now) }
    {
        self.rows().get(part).copied()
    }

    // The parts that count as failed.
    pub fn withdrawn(&self) -> u16
        ensures value { result ≡ failed_parts (page self.now) }
        ensures parts { HasFailed (page self.now) result }
    {
        let mut set = 0;
        for (part, row) in self.rows().iter().enumerate() {
            if row.counts_as_failed() {
                set += 1 << part;
            }
        }
        set
    }

    pub fn ratings(&self) -> [u32; MAX_ORDER]
        ensures value { result ≡ map rating_in_force (page self.now).rows }
        ensures bounded { (i : ℕ) → slice_index result i ≤ 65536 }
    {
        array::from_fn(|part| self.rows[part].rating_in_force())
    }

    pub(crate) fn prices(&self) -> [u16; MAX_ORDER]
        ensures { result ≡ prices_of (page self.now) }
    {
        array::from_fn(|part| self.rows[part].price())
    }

    // Of the rows, those of parts.
    fn rows(&self) -> &[Row]
        ensures rows { result.now ≡ take self.now.order.parts self.now.rows }
        ensures count { length result.now ≡ self.now.order.parts }
    {
        &self.rows[..self.order.parts()]
    }
}
