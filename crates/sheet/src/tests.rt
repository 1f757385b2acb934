// A sheet's refusals by example, and the ways out of a trial.
ghost use Rattle.std.specs.Prelude.{◌≡◌};
ghost use Rattle.sheet.specs.Sheets.{page};

use crate::refusal::Refusal;
use crate::sheet::Sheet;
use crate::trial::Trial;
use std::test::Fail;

// The parts that would count as failed without `part`, where `other` could be withdrawn too.
fn failed_without(sheet: &mut Sheet, part: usize, other: usize) -> Result<u16, Refusal>
    ensures { page sheet.new ≡ page sheet.old }
{
    sheet.check_withdraw(part)?;
    let trial = Trial::begin(sheet, part);
    trial.sheet().check_withdraw(other)?;
    Ok(trial.sheet().withdrawn())
}

// The first part whose withdrawal would leave `failed`.
fn first_to_leave(sheet: &mut Sheet, failed: u16) -> Option<usize>
    ensures { page sheet.new ≡ page sheet.old }
{
    // A loop, as in `weakest`: each trial borrows the sheet mutably.
    for part in 0..sheet.order() {
        let trial = Trial::begin(sheet, part);
        if trial.sheet().withdrawn() == failed {
            return Some(part);
        }
    }
    None
}

fn sheet_of_five() -> Result<Sheet, Refusal> {
    let mut sheet = Sheet::new();
    sheet.start(5)?;
    sheet.rate(4, 60000)?;
    sheet.withdraw(1)?;
    Ok(sheet)
}

#[test]
fn a_trial_ends_on_every_way_out(rt: HostRuntime) -> Result<(), Fail> {
    let mut sheet = sheet_of_five()?;
    assert_eq!(rt; failed_without(&mut sheet, 3, 4), Ok(10));
    assert_eq!(rt; failed_without(&mut sheet, 3, 3), Err(Refusal::Withdrawn));
    assert_eq!(rt; failed_without(&mut sheet, 5, 3), Err(Refusal::Part));
    assert_eq!(rt; first_to_leave(&mut sheet, 6), Some(2));
    assert_eq!(rt; first_to_leave(&mut sheet, 4), None);
    assert_eq!(rt; sheet.withdrawn(), 2);
    Ok(())
}

#[test]
fn refuses_by_the_first_that_fits(rt: HostRuntime) -> Result<(), Fail> {
    let mut sheet = sheet_of_five()?;
    assert_eq!(rt; sheet.rate(5, 65537), Err(Refusal::Part));
    assert_eq!(rt; sheet.rate(1, 65537), Err(Refusal::Rating));
    assert_eq!(rt; sheet.rate(1, 65536), Err(Refusal::RatedWithdrawn));
    assert_eq!(rt; sheet.rate(0, 65536), Ok(()));
    assert_eq!(rt; sheet.ratings()[4], 60000);
    Ok(())
}
