// Stations whose figures are known beforehand, and drawing one from its path sets.
#![tactic(auto)]

pub mod bridge;
pub mod draw;
