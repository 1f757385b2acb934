// What is asked of any structure: minimal paths and cuts, drawings made from them, counts, and sums in any weights.
#![tactic(auto)]

pub mod coherence;
pub mod listing;
pub mod listing_of;
pub mod minimal;
pub mod minimal_sets;
pub mod redraw;
pub mod refusal;
pub mod role;
mod room;
pub mod signature;
pub mod swing;
pub mod tally;
pub mod verdict;
pub mod weigh;
pub mod weighed;
pub mod weighed_tally;
