#![tactic(auto)]

// Examples that are run: of reading and printing, and of whole scripts on a book.
#[cfg(test)]
mod page;
#[cfg(test)]
mod reading;
#[cfg(test)]
mod scripts;
