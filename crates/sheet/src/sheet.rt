// An order and a row for each part, up to 16; no sheet that can exist has a rating over 65,536.
ghost use Rattle.std.specs.Prelude.{◌≡◌, ℕ, ◌≤◌, length, slice_index_or};
ghost use Rattle.sheet.specs.Rows.{blank_row};

use crate::row::Row;
use structure::order::Order;
use structure::structure::MAX_ORDER;

pub mod calls;
pub mod reading;

#[derive(Clone, Copy)]
pub struct Sheet {
    order: Order,
    // One for each part and the others unused: sheets are copied and take no heap.
    rows: [Row; MAX_ORDER],
    ghost whole: { length rows ≡ 16 },
    // Said here and not of a row: the definitions make a row of any rating.
    ghost bounded: { (i : ℕ) → (slice_index_or rows i blank_row).rating ≤ 65536 },
}
