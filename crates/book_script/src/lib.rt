// Scripts on a book: the commands, the runs and the faults of the whole language.
#![tactic(auto)]

pub use script::{output, stage};

pub mod command;
pub mod console;
pub mod fault;
pub mod interpreter;
pub mod line;
pub mod reader;
pub mod reply;
pub mod run;
