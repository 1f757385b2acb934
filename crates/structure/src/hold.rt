// The hold layer: a set of parts counts as failed, whatever the state says of them.
ghost use Rattle.std.specs.Prelude.{◌≡◌};
ghost use Rattle.structure.specs.Layers.{hold};
ghost use Rattle.structure.specs.LayersLemmas.{hold_monotone};
ghost use Rattle.structure.specs.States.{cleared};
ghost use Rattle.std.proofs.Common.{rules};

use crate::order::Order;
use crate::structure::Structure;

#[derive(Clone, Copy)]
pub struct Hold<S> {
    failed: u16,
    below: S,
}

impl<S: Structure> Hold<S> {
    pub fn new(below: S, failed: u16) -> Self
        ensures below { result.below ≡ below }
        ensures failed { result.failed ≡ failed }
    {
        Hold { failed, below }
    }
}

impl<S: Structure> Structure for Hold<S> {
    ghost meaning = { λ s. hold s.failed (S.Structure.meaning s.below) };

    ghost sized = { Prim.search rules };

    ghost monotone = { λ s. hold_monotone s.failed (S.Structure.meaning s.below) (S.Structure.monotone s.below) };

    fn order(&self) -> usize {
        self.below.order()
    }

    fn works(&self, state: u32) -> bool {
        let state = Order::of(&self.below).known(state);
        self.below.works(clear(state, self.failed))
    }
}

// The parts of `state` that are not in `set`.
fn clear(state: u32, set: u16) -> u32
    ensures { result ≡ cleared set state }
{
    state & !u32::from(set)
}
