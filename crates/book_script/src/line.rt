// The lines that a script on a book prints, for whoever prints them.
ghost use Rattle.std.specs.Prelude.{Some};
ghost use Rattle.book_script.specs.Lines.{figure_text};

pub use book::figure::Figure;
pub use script::line::{FaultLine, RowKind, RowLine, print_row};
use std::fmt;

// The figure of a station, and whether it was held.
#[derive(Clone, Copy)]
pub struct FigureLine(pub Figure);

impl fmt::Display for FigureLine {
    ghost output = { λ line. Some (figure_text line.0.units line.0.held) };

    fn fmt<W: fmt::Write>(&self, f: &mut fmt::Formatter<W>) -> fmt::Result {
        let Figure { units, held } = self.0;
        let held = u8::from(held);
        write!(f, "F {units} {held}")
    }
}
