// Why a call on a structure is refused, for every layer above.
ghost use Rattle.std.specs.Prelude.{◌≡◌};
ghost use Rattle.structure.specs.Refusals.{number_of};

#[derive(Clone, Copy, Debug, PartialEq, Eq)]
pub enum Refusal {
    Order,
    Full,
    Empty,
    Stray,
    Threshold,
}

impl Refusal {
    // The number that formats know it by; `u8::from`, here and in the layers above, would not say that.
    pub fn number(self) -> u8
        ensures { result ≡ number_of self }
    {
        match self {
            Refusal::Order => 1,
            Refusal::Full => 2,
            Refusal::Empty => 3,
            Refusal::Stray => 4,
            Refusal::Threshold => 5,
        }
    }
}
