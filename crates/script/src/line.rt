// The lines that a script prints, for whoever prints them.
ghost use Rattle.std.specs.Prelude.{◌≡◌, ℕ, List, Some, OnOk};
ghost use Rattle.std.specs.Fmt.{DisplaysOnOk, option_append};
ghost use Rattle.script.specs.Lines.{fault_text, letter_of};
ghost use Rattle.script.specs.Rows.{row};

use crate::output::Output;
use std::fmt;

// What a row tells of a station: its path numbers, its signature, or its minimal cuts.
#[derive(Clone, Copy, Debug, PartialEq, Eq)]
pub enum RowKind {
    Tally,
    Signature,
    Cuts,
}

#[derive(Clone, Copy)]
pub struct RowLine<'a, N> {
    pub kind: RowKind,
    pub values: &'a [N],
}

// A fault, by the place of the command's first byte and its number.
#[derive(Clone, Copy)]
pub struct FaultLine {
    pub place: usize,
    // Of a fault of either language, which are two types.
    pub number: u8,
}

impl RowKind {
    pub fn letter(self) -> &'static str
        ensures { result.now ≡ letter_of self }
    {
        match self {
            RowKind::Tally => "T",
            RowKind::Signature => "S",
            RowKind::Cuts => "M",
        }
    }
}

// Prints a row as one line. Inline, as the values below are not, so that no row takes more stack than a fault.
#[inline(always)]
pub fn print_row<N: fmt::Display, O: Output>(
    kind: RowKind,
    values: &[N],
    out: &mut O,
) -> Result<(), O::Error>
    ensures { OnOk result ((t : List ℕ) → option_append (Some (letter_of kind)) (row N.output values.now) ≡ Some t → O.Output.printed out.old t out.new) }
{
    out.print(&RowLine { kind, values })
}

impl<N: fmt::Display> fmt::Display for RowLine<'_, N> {
    ghost output = { λ line. option_append (Some (letter_of line.kind)) (row N.output line.values.now) };

    fn fmt<W: fmt::Write>(&self, f: &mut fmt::Formatter<W>) -> fmt::Result {
        put_row(f, self.kind.letter(), self.values)
    }
}

// A word, then each value after a space. What this needs is off the stack again when the line is written out.
#[inline(never)]
fn put_row<W: fmt::Write, N: fmt::Display>(
    f: &mut fmt::Formatter<W>,
    word: &str,
    values: &[N],
) -> fmt::Result
    ensures { DisplaysOnOk W.write_str_gives f.old result (option_append (Some word.now) (row N.output values.now)) f.new }
{
    write!(f, "{word}")?;
    for value in values {
        write!(f, " {value}")?;
    }
    Ok(())
}

impl fmt::Display for FaultLine {
    ghost output = { λ line. Some (fault_text line.place line.number) };

    fn fmt<W: fmt::Write>(&self, f: &mut fmt::Formatter<W>) -> fmt::Result {
        let place = self.place;
        let number = self.number;
        write!(f, "! {place} {number}")
    }
}
