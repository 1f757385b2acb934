// The verdict on a structure: whether it is coherent, and which parts matter to it.
ghost use Rattle.std.specs.Prelude.{◌≡◌, ◌<◌};
ghost use Rattle.analysis.specs.Verdicts.{works_with_all, fails_with_none, matters, relevant_parts, is_coherent};

use crate::coherence::Verdict;
use crate::swing::swing;
use structure::order::Order;
use structure::structure::Structure;

pub fn verdict<S: Structure>(structure: &S) -> Verdict
    ensures all { result.works_with_all ≡ works_with_all (S.Structure.meaning structure.now) }
    ensures none { result.fails_with_none ≡ fails_with_none (S.Structure.meaning structure.now) }
    ensures relevant { result.relevant ≡ relevant_parts (S.Structure.meaning structure.now) }
    ensures coherent { result.coherent ≡ is_coherent (S.Structure.meaning structure.now) }
{
    let works_with_all = structure.works(Order::of(structure).all());
    let fails_with_none = !structure.works(0);
    Verdict {
        works_with_all,
        fails_with_none,
        relevant: relevant_parts(structure),
        coherent: works_with_all && fails_with_none,
    }
}

fn relevant_parts<S: Structure>(structure: &S) -> u16
    ensures { result ≡ relevant_parts (S.Structure.meaning structure.now) }
{
    (0..structure.order())
        .filter(|part| is_relevant(structure, *part))
        .map(|part| 1 << part)
        .sum()
}

fn is_relevant<S: Structure>(structure: &S, part: usize) -> bool
    requires { part < (S.Structure.meaning structure.now).order }
    ensures { result ≡ matters (S.Structure.meaning structure.now) part }
{
    swing(structure, part).is_ok_and(|states| states > 0)
}
