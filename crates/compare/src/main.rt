// Two plans of one station of four parts beside each other: what each call answers, and both figures at the end.
#![tactic(auto)]

mod fault;
mod plans;
mod possible;
mod report;

use book::answer::{Answer, Reply};
use book::call::{Call, Weights};
use book::compare::compare;
use book::figure::Figures;
use book::plan::Plan;
use fault::Fault;
use plans::{PARTS, one_chain, two_chains};
use possible::Possible;
use report::{print_answers, print_figure};
use weight::Weight;

const CALLS: usize = 15;

// As many as weighing four parts wants.
const SLOTS: usize = 3 * PARTS + 3;

fn main(rt: HostRuntime) -> Result<(), Fault> {
    let yes = [Possible::one(); PARTS];
    let mut given = [Ok(Reply::Done); CALLS];
    let mut told = [Ok(Reply::Done); CALLS];
    let figures = compare_plans(&yes, &mut given, &mut told)?;
    print_answers(&rt, "one chain", &given)?;
    print_figure(&rt, "one chain at the end", figures.first)?;
    print_answers(&rt, "two chains", &told)?;
    print_figure(&rt, "two chains at the end", figures.second)?;
    Ok(())
}

// Both plans get the same calls.
fn compare_plans<'a>(
    yes: &'a [Possible],
    given: &mut [Answer<Possible>],
    told: &mut [Answer<Possible>],
) -> Result<Figures, Fault> {
    let weights = Weights {
        up: yes,
        down: yes,
        slots: SLOTS,
    };
    let few = Weights {
        slots: PARTS,
        ..weights
    };
    let calls = [
        Call::Rate {
            part: 0,
            rating: 60000,
        },
        Call::Rate {
            part: 1,
            rating: 50000,
        },
        Call::Rate {
            part: 2,
            rating: 50000,
        },
        Call::Rate {
            part: 3,
            rating: 70000,
        },
        Call::Rate {
            part: 3,
            rating: 60000,
        },
        Call::Price {
            part: 1,
            price: 420,
        },
        Call::Figure,
        Call::Figure,
        Call::Importance { part: 1 },
        Call::Weigh(weights),
        Call::Withdraw { part: 1 },
        Call::Withdraw { part: 1 },
        Call::Figure,
        Call::Weigh(weights),
        Call::Weigh(few),
    ];
    let mut slots = [Possible::zero(); SLOTS];
    let one = Plan {
        structure: &one_chain()?,
        calls: &calls,
    };
    let two = Plan {
        structure: &two_chains()?,
        calls: &calls,
    };
    let figures = compare(&one, given, &two, told, &mut slots)?;
    Ok(figures)
}
