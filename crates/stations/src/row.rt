// A row of numbers as a call wrote them, each printed after a space.
use analysis::refusal::Refusal;
use std::fmt;
use std::fmt::Display;

#[derive(Clone, Copy, PartialEq, Eq)]
pub struct Row<N, const PLACES: usize> {
    // Counted by hand: the calls that fill them take lent places and answer how many they hold.
    places: [N; PLACES],
    count: usize,
}

impl<N: Copy + Default, const PLACES: usize> Row<N, PLACES> {
    // Lends the call its places.
    pub(crate) fn of<F: FnOnce(&mut [N]) -> Result<usize, Refusal>>(
        call: F,
    ) -> Result<Self, Refusal>
        requires { F.IsAlwaysCallable call }
    {
        let mut places = [N::default(); PLACES];
        let count = call(&mut places)?;
        Ok(Row { places, count })
    }
}

impl<N: Display, const PLACES: usize> Display for Row<N, PLACES> {
    fn fmt<W: fmt::Write>(&self, f: &mut fmt::Formatter<W>) -> fmt::Result {
        for value in self.places.iter().take(self.count) {
            write!(f, " {value}")?;
        }
        Ok(())
    }
}
