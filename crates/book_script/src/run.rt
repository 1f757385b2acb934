// A script as it runs: its stage, and beside it the drawing and the book that is opened on it.
use crate::stage::Stage;
use book::book::Book;
use structure::path_list::PathList;

mod answers;
pub mod calls;

#[derive(Drop)]
pub struct Run {
    // A plain tag: one match on it and the command serves all stages.
    stage: Stage,
    drawn: PathList,
    // Before the opening, that of a blank drawing.
    book: Book,
}
