// Takes the commands on a book from the bytes of a script.
ghost use Rattle.book_script.specs.Forms.{forms};

use crate::command::Command;
use crate::fault::Malformed;
pub use script::reader::{LONGEST, Parse, Reader};

impl Parse for Command {
    ghost forms = { forms };

    fn front(bytes: &[u8]) -> Result<Option<(Command, usize)>, Malformed> {
        match bytes {
            [] => Ok(None),
            [b'N', order, ..] => Ok(Some((Command::Start { order: *order }, 2))),
            [b'P', high, low, ..] => {
                let set = u16::from_be_bytes([*high, *low]);
                Ok(Some((Command::Add { set }, 3)))
            }
            [b'O', ..] => Ok(Some((Command::Open, 1))),
            [b'R', part, a, b, c, d, ..] => {
                let rating = u32::from_be_bytes([*a, *b, *c, *d]);
                let command = Command::Rate {
                    part: *part,
                    rating,
                };
                Ok(Some((command, 6)))
            }
            [b'C', part, a, b, ..] => {
                let price = u16::from_be_bytes([*a, *b]);
                Ok(Some((Command::Price { part: *part, price }, 4)))
            }
            [b'W', part, ..] => Ok(Some((Command::Withdraw { part: *part }, 2))),
            [b'B', part, ..] => Ok(Some((Command::PutBack { part: *part }, 2))),
            [b'F', ..] => Ok(Some((Command::Figure, 1))),
            [b'T', ..] => Ok(Some((Command::Tally, 1))),
            [b'S', ..] => Ok(Some((Command::Signature, 1))),
            [b'M', ..] => Ok(Some((Command::Cuts, 1))),
            [b'N' | b'P' | b'R' | b'C' | b'W' | b'B', ..] => Err(Malformed::Short),
            [_, ..] => Err(Malformed::Unknown),
        }
    }
}
