// One command of a script with its operands, for the reader and whoever runs it. A type beside that of drawings, to whose programs a rate or a withdrawal is an unknown byte.
#[derive(Clone, Copy, Debug, PartialEq, Eq)]
pub enum Command {
    Start { order: u8 },
    Add { set: u16 },
    Open,
    Rate { part: u8, rating: u32 },
    Price { part: u8, price: u16 },
    Withdraw { part: u8 },
    PutBack { part: u8 },
    Figure,
    Tally,
    Signature,
    Cuts,
}
