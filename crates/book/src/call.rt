// A call on a book with all its arguments, as a list of calls holds it.

// `M` is what a weigh brings: `Weights` of any weight. An enum may hold a reference to a type with ghost fields only in a type argument.
#[derive(Clone, Copy)]
pub enum Call<M> {
    Rate { part: usize, rating: u32 },
    Price { part: usize, price: u32 },
    Withdraw { part: usize },
    PutBack { part: usize },
    Figure,
    Importance { part: usize },
    Weigh(M),
}

// The slots are lent by whoever replays the call.
#[derive(Clone, Copy)]
pub struct Weights<'a, W> {
    pub up: &'a [W],
    pub down: &'a [W],
    pub slots: usize,
}
