// What an accepted command answers: nothing, a figure, or how many of the lent places now hold it. A count and no slice: a reply that borrowed the places could not tell what they hold.
use book::figure::Figure;

#[derive(Clone, Copy, Debug, PartialEq, Eq)]
pub enum Reply {
    Silent,
    Figure(Figure),
    Tally(usize),
    Signature(usize),
    Cuts(usize),
}
