// A book: the answers of the opened structure, and what has been entered since.
ghost use Rattle.std.specs.Prelude.{◌≡◌, ℕ, Some};
ghost use Rattle.structure.specs.Tables.{tabled};
ghost use Rattle.sheet.specs.SheetFigure.{figure_at};
ghost use Rattle.sheet.specs.Sheets.{page, failed_parts};

use crate::entries::Entries;
use structure::table::Table;

pub mod calls;
pub mod questions;
pub mod station;

#[derive(Drop)]
pub struct Book {
    table: Table,
    entries: Entries,
    ghost fits: { table.order.parts ≡ entries.sheet.order.parts },
    ghost standing: { entries.failed ≡ failed_parts (page entries.sheet) },
    ghost figure: { (units : ℕ) → entries.held ≡ Some units → units ≡ figure_at (tabled table.order.parts table.words) (page entries.sheet) },
}
