// What can go wrong with a command, by the layer that found it; each carries the lower layer's reason whole.
ghost use Rattle.std.specs.Prelude.{◌≡◌};
ghost use Rattle.script.specs.declared.fault.Fault.TheVariants.{Reading, Station};
ghost use Rattle.script.specs.declared.fault.StationRefusal.TheVariants.{Structure, Analysis};
ghost use Rattle.script.specs.Faults.{number_of, malformed_number, refusal_number};

use analysis::refusal::Refusal as AnalysisRefusal;
use structure::refusal::Refusal as StructureRefusal;

// Why a script cannot be read.
#[derive(Clone, Copy, Debug, PartialEq, Eq)]
pub enum Malformed {
    Unknown,
    Short,
    Long,
}

// Why the station refused a command that was read and taken.
#[derive(Clone, Copy, Debug, PartialEq, Eq)]
pub enum StationRefusal {
    Structure(StructureRefusal),
    Analysis(AnalysisRefusal),
}

#[derive(Clone, Copy, Debug, PartialEq, Eq)]
pub enum Fault {
    Reading(Malformed),
    Stage,
    Station(StationRefusal),
}

impl Malformed {
    pub fn number(self) -> u8
        ensures { result ≡ malformed_number self }
    {
        match self {
            Malformed::Unknown => 20,
            Malformed::Short => 21,
            Malformed::Long => 23,
        }
    }
}

impl StationRefusal {
    pub fn number(self) -> u8
        ensures { result ≡ refusal_number self }
    {
        match self {
            StationRefusal::Structure(why) => why.number(),
            StationRefusal::Analysis(why) => why.number(),
        }
    }
}

impl Fault {
    pub fn number(self) -> u8
        ensures { result ≡ number_of self }
    {
        match self {
            Fault::Reading(why) => why.number(),
            Fault::Stage => 22,
            Fault::Station(why) => why.number(),
        }
    }
}

// Written by hand here and below, since contracts read `from_gives`, which no derive writes.
impl From<Malformed> for Fault {
    ghost from_gives = { λ why fault. fault ≡ Reading why };

    fn from(why: Malformed) -> Fault {
        Fault::Reading(why)
    }
}

impl From<StructureRefusal> for Fault {
    ghost from_gives = { λ why fault. fault ≡ Station (Structure why) };

    fn from(why: StructureRefusal) -> Fault {
        Fault::Station(StationRefusal::Structure(why))
    }
}

impl From<AnalysisRefusal> for Fault {
    ghost from_gives = { λ why fault. fault ≡ Station (Analysis why) };

    fn from(why: AnalysisRefusal) -> Fault {
        Fault::Station(StationRefusal::Analysis(why))
    }
}
