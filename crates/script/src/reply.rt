// What an accepted command answers: nothing, or how many of the lent places now hold it. A count and no slice: a reply that borrowed the places could not tell what they hold.
#[derive(Clone, Copy, Debug, PartialEq, Eq)]
pub enum Reply {
    Silent,
    Tally(usize),
    Signature(usize),
    Cuts(usize),
}
