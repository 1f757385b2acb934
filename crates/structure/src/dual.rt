// The dual layer: works exactly where the structure below fails with every part reversed.
ghost use Rattle.std.specs.Prelude.{◌≡◌};
ghost use Rattle.structure.specs.Layers.{dual};
ghost use Rattle.structure.specs.Meanings.{Same};
ghost use Rattle.structure.specs.LayersLemmas.{dual_monotone};
ghost use Rattle.std.proofs.Common.{rules};

use crate::order::Order;
use crate::structure::Structure;

#[derive(Clone, Copy)]
pub struct Dual<S> {
    below: S,
}

impl<S: Structure> Dual<S> {
    pub fn new(below: S) -> Self
        ensures { result.below ≡ below }
    {
        Dual { below }
    }
}

impl<S: Structure> Dual<Dual<S>> {
    // Two duals over one another say nothing new, so both may be taken off.
    pub fn cancel(self) -> S
        ensures value { result ≡ self.below.below }
        ensures same { Same (S.Structure.meaning result) (dual (dual (S.Structure.meaning self.below.below))) }
    {
        let Dual {
            below: Dual { below },
        } = self;
        below
    }
}

impl<S: Structure> Structure for Dual<S> {
    ghost meaning = { λ s. dual (S.Structure.meaning s.below) };

    ghost sized = { Prim.search rules };

    ghost monotone = { λ s. dual_monotone (S.Structure.meaning s.below) (S.Structure.monotone s.below) };

    fn order(&self) -> usize {
        self.below.order()
    }

    fn works(&self, state: u32) -> bool {
        !self.below.works(Order::of(&self.below).reverse(state))
    }
}
