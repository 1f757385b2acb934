#![tactic(auto)]

// Examples that are run: of reading and printing, of whole scripts, and of structures and their minimal sets.
#[cfg(test)]
mod page;
#[cfg(test)]
mod reading;
#[cfg(test)]
mod scripts;
#[cfg(test)]
mod stations;
