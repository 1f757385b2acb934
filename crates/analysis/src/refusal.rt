// Why a question asked of a structure is refused.
ghost use Rattle.std.specs.Prelude.{◌≡◌};
ghost use Rattle.analysis.specs.Refusals.{number_of};

#[derive(Clone, Copy, Debug, PartialEq, Eq)]
pub enum Refusal {
    UpWeights,
    DownWeights,
    TooFewSlots,
    Part,
    TooFewPlaces { needed: usize },
}

impl Refusal {
    pub fn number(self) -> u8
        ensures { result ≡ number_of self }
    {
        match self {
            Refusal::UpWeights => 6,
            Refusal::DownWeights => 7,
            Refusal::TooFewSlots => 8,
            Refusal::Part => 10,
            Refusal::TooFewPlaces { .. } => 16,
        }
    }
}
