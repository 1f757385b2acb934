// What can go wrong with a command, by the layer that found it; each carries the lower layer's reason whole.
ghost use Rattle.std.specs.Prelude.{◌≡◌};
ghost use Rattle.book_script.specs.declared.fault.Fault.TheVariants.{Reading, Station};
ghost use Rattle.book_script.specs.declared.fault.StationRefusal.TheVariants.{Structure, Analysis, Book};
ghost use Rattle.book_script.specs.Faults.{number_of, refusal_number};

use analysis::refusal::Refusal as AnalysisRefusal;
pub use script::fault::Malformed;
use sheet::refusal::Refusal as BookRefusal;
use structure::refusal::Refusal as StructureRefusal;

// Why the station refused a command that was read and taken.
#[derive(Clone, Copy, Debug, PartialEq, Eq)]
pub enum StationRefusal {
    Structure(StructureRefusal),
    Analysis(AnalysisRefusal),
    Book(BookRefusal),
}

// Not generic in the refusal with `script`'s: an impl of `From` names a type of its crate, so `?` would take as many impls again.
#[derive(Clone, Copy, Debug, PartialEq, Eq)]
pub enum Fault {
    Reading(Malformed),
    Stage,
    Station(StationRefusal),
}

impl StationRefusal {
    pub fn number(self) -> u8
        ensures { result ≡ refusal_number self }
    {
        match self {
            StationRefusal::Structure(why) => why.number(),
            StationRefusal::Analysis(why) => why.number(),
            StationRefusal::Book(why) => why.number(),
        }
    }
}

impl Fault {
    pub fn number(self) -> u8
        ensures { result ≡ number_of self }
    {
        match self {
            Fault::Reading(why) => why.number(),
            Fault::Stage => 22,
            Fault::Station(why) => why.number(),
        }
    }
}

// Written by hand here and below, since contracts read `from_gives`, which no derive writes.
impl From<Malformed> for Fault {
    ghost from_gives = { λ why fault. fault ≡ Reading why };

    fn from(why: Malformed) -> Fault {
        Fault::Reading(why)
    }
}

impl From<StructureRefusal> for Fault {
    ghost from_gives = { λ why fault. fault ≡ Station (Structure why) };

    fn from(why: StructureRefusal) -> Fault {
        Fault::Station(StationRefusal::Structure(why))
    }
}

impl From<AnalysisRefusal> for Fault {
    ghost from_gives = { λ why fault. fault ≡ Station (Analysis why) };

    fn from(why: AnalysisRefusal) -> Fault {
        Fault::Station(StationRefusal::Analysis(why))
    }
}

impl From<BookRefusal> for Fault {
    ghost from_gives = { λ why fault. fault ≡ Station (Book why) };

    fn from(why: BookRefusal) -> Fault {
        Fault::Station(StationRefusal::Book(why))
    }
}
