// Why a call on a sheet or a book is refused; a reason of a lower layer is carried whole.
ghost use Rattle.std.specs.Prelude.{◌≡◌};
ghost use Rattle.sheet.specs.declared.refusal.Refusal.TheVariants.{Structure, Analysis};
ghost use Rattle.sheet.specs.Refusals.{number_of};

use analysis::refusal::Refusal as AnalysisRefusal;
use structure::refusal::Refusal as StructureRefusal;

#[derive(Clone, Copy, Debug, PartialEq, Eq)]
pub enum Refusal {
    Part,
    Rating,
    Price,
    RatedWithdrawn,
    Withdrawn,
    InService,
    Orders,
    Structure(StructureRefusal),
    Analysis(AnalysisRefusal),
}

impl Refusal {
    pub fn number(self) -> u8
        ensures { result ≡ number_of self }
    {
        match self {
            Refusal::Part => 10,
            Refusal::Rating => 11,
            Refusal::Price => 12,
            Refusal::RatedWithdrawn => 13,
            Refusal::Withdrawn => 14,
            Refusal::InService => 15,
            Refusal::Orders => 17,
            Refusal::Structure(why) => why.number(),
            Refusal::Analysis(why) => why.number(),
        }
    }
}

// Written by hand here and below, since contracts read `from_gives`, which no derive writes.
impl From<StructureRefusal> for Refusal {
    ghost from_gives = { λ why refusal. refusal ≡ Structure why };

    fn from(why: StructureRefusal) -> Refusal {
        Refusal::Structure(why)
    }
}

impl From<AnalysisRefusal> for Refusal {
    ghost from_gives = { λ why refusal. refusal ≡ Analysis why };

    fn from(why: AnalysisRefusal) -> Refusal {
        Refusal::Analysis(why)
    }
}
