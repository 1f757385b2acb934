// A list of calls, and the structure that their book is opened on.
use crate::call::{Call, Weights};

#[derive(Drop)]
pub struct Plan<'a, 'w, S, W> {
    pub structure: &'a S,
    pub calls: &'a [Call<Weights<'w, W>>],
}
