// One command of a script with its operands, for the reader and whoever runs it.
#[derive(Clone, Copy, Debug, PartialEq, Eq)]
pub enum Command {
    Start { order: u8 },
    Add { set: u16 },
    Open,
    Tally,
    Signature,
    Cuts,
}
