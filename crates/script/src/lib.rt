// Scripts: strings of bytes that drive a station, and the lines that answer them.
#![tactic(auto)]

pub mod command;
pub mod console;
pub mod fault;
pub mod interpreter;
pub mod line;
pub mod output;
pub mod reader;
pub mod reply;
pub mod run;
pub mod stage;
