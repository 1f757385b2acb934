// A station's book: the structure it was opened on, its sheet, and a held figure that never outlives a change.
#![tactic(auto)]

pub mod answer;
pub mod book;
pub mod call;
pub mod compare;
mod entries;
pub mod figure;
pub mod plan;
pub mod replay;
