// Starting a list of sets and adding to it, and reading it.
ghost use Rattle.std.specs.Prelude.{◌≡◌, ◌%◌, ◌^◌};
ghost use Rattle.structure.specs.Drawings.{drawing, blank, started, added};

use super::{CAPACITY, SetList};
use crate::order::Order;
use crate::refusal::Refusal;

impl SetList {
    pub fn new() -> Self
        ensures { drawing result ≡ blank }
    {
        SetList {
            order: Order::one(),
            sets: [0; CAPACITY],
            count: 0,
        }
    }

    pub fn start(&mut self, order: usize) -> Result<(), Refusal>
        ensures { (result, drawing self.new) ≡ started order (drawing self.old) }
    {
        self.order = Order::try_from(order)?;
        self.count = 0;
        Ok(())
    }

    pub fn add(&mut self, set: u16) -> Result<(), Refusal>
        ensures { (result, drawing self.new) ≡ added set (drawing self.old) }
    {
        let at = self.count;
        if at >= CAPACITY {
            return Err(Refusal::Full);
        }
        if set == 0 {
            return Err(Refusal::Empty);
        }
        if u32::from(set) >= 1 << self.order.parts() {
            return Err(Refusal::Stray);
        }
        self.sets[at] = set;
        self.count = at + 1;
        Ok(())
    }

    pub fn order(&self) -> usize
        ensures { result ≡ (drawing self.now).order }
    {
        self.order.parts()
    }

    // The digits of `state` that stand for a part.
    pub(crate) fn known(&self, state: u32) -> u32
        ensures { result ≡ state % 2 ^ (drawing self.now).order }
    {
        self.order.known(state)
    }

    pub fn sets(&self) -> &[u16]
        ensures { result.now ≡ (drawing self.now).sets }
    {
        &self.sets[..self.count]
    }
}
