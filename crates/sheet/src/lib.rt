// A station's ratings, prices and withdrawals, and the figures that follow from them.
#![tactic(auto)]

pub mod cheapest;
mod figure;
pub mod figure_of_rows;
pub mod importance;
pub mod refusal;
pub mod row;
pub mod sheet;
pub mod sheet_figure;
#[cfg(test)]
mod tests;
pub mod trial;
pub mod weakest;
