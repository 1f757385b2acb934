// A page that takes the lines of a script, for the tests that read them.
use script::output::Output;
use std::fmt;
use std::fmt::{Display, Write};

#[derive(Drop)]
pub struct Page {
    pub text: String,
}

impl Output for Page {
    type Error = fmt::Error;

    ghost printed = { λ _ _ _. Unit {0} };

    fn print<L: Display>(&mut self, line: &L) -> fmt::Result {
        writeln!(self.text, "{line}")?;
        Ok(())
    }
}
