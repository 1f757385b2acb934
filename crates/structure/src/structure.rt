// What every structure answers, and the laws it keeps; all analyses rest on this alone.
ghost use Rattle.std.specs.Prelude.{◌≡◌, ◌%◌, ◌^◌};
ghost use Rattle.structure.specs.Meanings.{Meaning, Sized, Monotone};

pub const MAX_ORDER: usize = 16;

pub trait Structure {
    ghost meaning: { Self → Meaning };

    fn order(&self) -> usize
        ensures { result ≡ (meaning self.now).order };

    // Digits of `state` from the order on are ignored.
    fn works(&self, state: u32) -> bool
        ensures { result ≡ (meaning self.now).works (state % 2 ^ (meaning self.now).order) };

    ghost sized: { (s : Self) → Sized (meaning s) };

    ghost monotone: { (s : Self) → Monotone (meaning s) };
}

impl<S: Structure> Structure for &S {
    ghost meaning = { λ s. S.Structure.meaning s.now };

    ghost sized = { λ s. S.Structure.sized s.now };

    ghost monotone = { λ s. S.Structure.monotone s.now };

    fn order(&self) -> usize {
        (*self).order()
    }

    fn works(&self, state: u32) -> bool {
        (*self).works(state)
    }
}
