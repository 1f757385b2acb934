// Replays a list of calls on each of two books just opened, to set one plan beside another.
ghost use Rattle.book.specs.Comparisons.{Comparison};
ghost use Rattle.book.specs.Example.{PremiseMet};

use crate::answer::Answer;
use crate::figure::Figures;
use crate::plan::Plan;
use sheet::refusal::Refusal;
use structure::structure::Structure;
use weight::Weight;

// The slots serve both, whatever they hold; the figures at the end are answered besides.
#[tactic(auto, using(crate::proofs::Example::premise_met))]
pub fn compare<S: Structure, T: Structure, W: Weight>(
    first: &Plan<S, W>,
    given: &mut [Answer<W>],
    second: &Plan<T, W>,
    told: &mut [Answer<W>],
    slots: &mut [W],
) -> Result<Figures, Refusal>
    ensures comparison { Comparison W.Weight (S.Structure.meaning first.now.structure.now) (T.Structure.meaning second.now.structure.now) first.now.calls.now second.now.calls.now slots.old slots.new given.old given.new told.old told.new result }
    ensures example { PremiseMet }
{
    first.check_room(slots.len(), given.len())?;
    second.check_room(slots.len(), told.len())?;
    Ok(Figures {
        first: first.replay_all(slots, given),
        second: second.replay_all(slots, told),
    })
}
