// A structure of n parts that works when at least k of them do.
ghost use Rattle.std.specs.Prelude.{◌≡◌, ◌≤◌, Some, None, Ok, Err};
ghost use Rattle.structure.specs.Kinds.{k_out_of_n, threshold_refused};
ghost use Rattle.structure.specs.Monotony.{k_out_of_n_monotone};
ghost use Rattle.std.proofs.Common.{rules};

use crate::order::Order;
use crate::refusal::Refusal;
use crate::structure::Structure;

#[derive(Clone, Copy)]
pub struct KOutOfN {
    k: usize,
    order: Order,
}

impl KOutOfN {
    pub fn new(order: usize, k: usize) -> Result<Self, Refusal>
        ensures { elim result [ Ok s ↦ (threshold_refused order k ≡ None) × (s.k ≡ k) × (s.order.parts ≡ order) | Err why ↦ threshold_refused order k ≡ Some why ] }
    {
        let order = Order::try_from(order)?;
        if !(1..=order.parts()).contains(&k) {
            return Err(Refusal::Threshold);
        }
        Ok(KOutOfN { k, order })
    }
}

impl Structure for KOutOfN {
    ghost meaning = { λ s. k_out_of_n s.k s.order.parts };

    ghost sized = { Prim.search rules };

    ghost monotone = { λ s. k_out_of_n_monotone s.k s.order.parts };

    fn order(&self) -> usize {
        self.order.parts()
    }

    fn works(&self, state: u32) -> bool {
        self.order.known(state).count_ones() as usize >= self.k
    }
}
