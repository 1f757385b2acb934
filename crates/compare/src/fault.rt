// Why the program stops.
use sheet::refusal::Refusal as SheetRefusal;
use std::io;
use structure::refusal::Refusal as StructureRefusal;
use thiserror::Error;

#[derive(Debug, Drop, Error)]
pub enum Fault {
    #[error("a station: {0:?}")]
    Structure(#[from] StructureRefusal),
    #[error("a sheet or a book: {0:?}")]
    Sheet(#[from] SheetRefusal),
    #[error("printing: {0}")]
    Print(#[from] io::Error),
}
