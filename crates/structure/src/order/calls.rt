// How an order is made, and the states that it allows.
ghost use Rattle.std.specs.Prelude.{◌≡◌, ◌<◌, ◌-◌, ◌%◌, ◌^◌};
ghost use Rattle.structure.specs.Orders.{OrderOrRefusal};
ghost use Rattle.structure.specs.States.{reversed};

use crate::order::Order;
use crate::refusal::Refusal;
use crate::structure::{MAX_ORDER, Structure};

impl Order {
    pub fn of<S: Structure>(structure: &S) -> Self
        ensures { result.parts ≡ (S.Structure.meaning structure.now).order }
    {
        Order {
            parts: structure.order(),
        }
    }

    pub fn one() -> Self
        ensures { result.parts ≡ 1 }
    {
        Order { parts: 1 }
    }

    pub fn parts(self) -> usize
        ensures { result ≡ self.parts }
    {
        self.parts
    }

    // The digits of `state` that stand for a part.
    pub fn known(self, state: u32) -> u32
        ensures value { result ≡ state % 2 ^ self.parts }
        ensures bound { result < 65536 }
    {
        state & self.all()
    }

    // The parts that do not work in `state`.
    pub fn reverse(self, state: u32) -> u32
        ensures { result ≡ reversed self.parts (state % 2 ^ self.parts) }
    {
        self.all() - self.known(state)
    }

    // The state in which every part works.
    pub fn all(self) -> u32
        ensures { result ≡ 2 ^ self.parts - 1 }
    {
        (1 << self.parts) - 1
    }
}

impl TryFrom<usize> for Order {
    type Error = Refusal;

    ghost try_from_gives = { OrderOrRefusal };

    fn try_from(parts: usize) -> Result<Self, Refusal> {
        if (1..=MAX_ORDER).contains(&parts) {
            Ok(Order { parts })
        } else {
            Err(Refusal::Order)
        }
    }
}
