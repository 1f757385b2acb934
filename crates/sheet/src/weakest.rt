// The part in service that a station can least spare, found by trials on the sheet.
ghost use Rattle.std.specs.Prelude.{◌≡◌};
ghost use Rattle.sheet.specs.Losses.{lower_of};
ghost use Rattle.sheet.specs.Sheets.{page};
ghost use Rattle.sheet.specs.Weakest.{figure_without_or_refusal, weakest_or_refusal, NamesUnlessRefused};

use crate::figure_of_rows::figure_at;
use crate::refusal::Refusal;
use crate::sheet::Sheet;
use crate::trial::Trial;
use structure::structure::Structure;

// A part, and the figure while it is withdrawn on trial.
#[derive(Clone, Copy)]
struct Loss {
    part: usize,
    figure: u64,
}

// What is left of a sheet that was lent no type can say, so each contract says it.
// The part whose loss leaves the lowest figure, the first among equals; none where no part is in service.
pub fn weakest<S: Structure>(structure: &S, sheet: &mut Sheet) -> Result<Option<usize>, Refusal>
    ensures kept { page sheet.new ≡ page sheet.old }
    ensures answer { result ≡ weakest_or_refusal (S.Structure.meaning structure.now) (page sheet.old) }
    ensures names { NamesUnlessRefused (S.Structure.meaning structure.now) (page sheet.old) result }
{
    sheet.check_order(structure)?;
    let mut lowest = None;
    // A loop, for each trial borrows the sheet mutably: what a chain's closure leaves of it is not known.
    for part in 0..sheet.order() {
        if let Ok(figure) = figure_without(structure, sheet, part) {
            lowest = Some(lower(lowest, Loss { part, figure }));
        }
    }
    Ok(lowest.map(|loss| loss.part))
}

// The figure while `part` is withdrawn on trial.
fn figure_without<S: Structure>(
    structure: &S,
    sheet: &mut Sheet,
    part: usize,
) -> Result<u64, Refusal>
    ensures kept { page sheet.new ≡ page sheet.old }
    ensures answer { result ≡ figure_without_or_refusal (S.Structure.meaning structure.now) (page sheet.old) part }
{
    sheet.check_withdraw(part)?;
    let trial = Trial::begin(sheet, part);
    Ok(figure_at(structure, trial.sheet()))
}

fn lower(earlier: Option<Loss>, later: Loss) -> Loss
    ensures { result ≡ lower_of earlier later }
{
    match earlier {
        Some(loss) if loss.figure <= later.figure => loss,
        _ => later,
    }
}
