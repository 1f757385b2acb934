// A structure drawn as a list of sets of parts, for either way to read the sets.
ghost use Rattle.std.specs.Prelude.{◌≡◌, ℕ, Bool, List};
ghost use Rattle.structure.specs.Drawings.{Drawing, drawing, blank, started, added};
ghost use Rattle.structure.specs.Kinds.{listed};
ghost use Rattle.structure.specs.Meanings.{Monotone};
ghost use Rattle.std.proofs.Common.{rules};

use crate::refusal::Refusal;
use crate::set_list::SetList;
use crate::structure::Structure;
use std::marker::PhantomData;

// In which states a structure works, by its sets.
pub trait Reading {
    ghost holds: { ℕ → List ℕ → Bool };

    fn holds(state: u32, sets: &[u16]) -> bool
        ensures { result ≡ holds state sets.now };

    ghost monotone: { (d : Drawing) → Monotone (listed holds d) };
}

#[derive(Clone, Copy)]
pub struct Listed<R> {
    list: SetList,
    reading: PhantomData<R>,
}

impl<R: Reading> Listed<R> {
    pub fn of(list: SetList) -> Self
        ensures { result.list ≡ list }
    {
        Listed {
            list,
            reading: PhantomData,
        }
    }

    pub fn new() -> Self
        ensures { drawing result.list ≡ blank }
    {
        Self::of(SetList::new())
    }

    pub fn start(&mut self, order: usize) -> Result<(), Refusal>
        ensures { (result, drawing self.new.list) ≡ started order (drawing self.old.list) }
    {
        self.list.start(order)
    }

    pub fn add(&mut self, set: u16) -> Result<(), Refusal>
        ensures { (result, drawing self.new.list) ≡ added set (drawing self.old.list) }
    {
        self.list.add(set)
    }
}

impl<R: Reading> Structure for Listed<R> {
    ghost meaning = { λ s. listed R.Reading.holds (drawing s.list) };

    ghost sized = { Prim.search rules };

    ghost monotone = { λ s. R.Reading.monotone (drawing s.list) };

    fn order(&self) -> usize {
        self.list.order()
    }

    fn works(&self, state: u32) -> bool {
        R::holds(self.list.known(state), self.list.sets())
    }
}
