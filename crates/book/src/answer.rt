// What a book answers to a call of a list.
use crate::figure::Figure;
use sheet::refusal::Refusal;

pub type Answer<W> = Result<Reply<W>, Refusal>;

#[derive(Clone, Copy)]
pub enum Reply<W> {
    Done,
    Figure(Figure),
    Importance(u64),
    Weighed(W),
}
