// Takes the commands of a script one by one from its bytes, for whoever runs it.
ghost use Rattle.std.specs.Prelude.{◌≡◌, ◌+◌, ◌<◌, ◌≤◌, List, length, MatchResult};
ghost use Rattle.script.specs.declared.fault.Malformed.TheVariants.{Long};
ghost use Rattle.script.specs.Forms.{forms};
ghost use Rattle.script.specs.Reading.{Form, front_of, command_of, size_of, Onward};
ghost use Rattle.script.specs.Readers.{whole, unread};

use crate::command::Command;
use crate::fault::Malformed;

// The most bytes that a script may have.
pub const LONGEST: usize = 4096;

// The commands of one language.
pub trait Parse: Copy {
    ghost forms: { List (Form Self) };

    // The command at the front, and how many bytes it takes.
    fn front(bytes: &[u8]) -> Result<Option<(Self, usize)>, Malformed>
        ensures { result ≡ front_of forms bytes.now };
}

#[derive(Drop)]
pub struct Reader<'a> {
    bytes: &'a [u8],
    place: usize,
}

impl<'a> Reader<'a> {
    pub fn new(bytes: &'a [u8]) -> Result<Reader<'a>, Malformed>
        ensures { MatchResult result (λ reader. (length bytes.now ≤ 4096) × (whole reader ≡ bytes.now) × (reader.place ≡ 0)) (λ fault. (4096 < length bytes.now) × (fault ≡ Long)) }
    {
        if bytes.len() > LONGEST {
            return Err(Malformed::Long);
        }
        Ok(Reader { bytes, place: 0 })
    }

    // Where the next command begins.
    pub fn place(&self) -> usize
        ensures { result ≡ self.now.place }
    {
        self.place
    }

    // Passes the next command, or stays where it is.
    pub fn next<C: Parse>(&mut self) -> Result<Option<C>, Malformed>
        ensures answer { result ≡ command_of (front_of C.forms (unread self.old)) }
        ensures place { self.new.place ≡ self.old.place + size_of (front_of C.forms (unread self.old)) }
        ensures kept { whole self.new ≡ whole self.old }
        ensures onward { Onward result self.old.place self.new.place (length (whole self.old)) }
    {
        let Some((command, size)) = C::front(self.rest())? else {
            return Ok(None);
        };
        self.place += size;
        Ok(Some(command))
    }

    fn rest(&self) -> &'a [u8]
        ensures { result.now ≡ unread self.now }
    {
        self.bytes.get(self.place..).unwrap_or(&[])
    }
}

impl Parse for Command {
    ghost forms = { forms };

    fn front(bytes: &[u8]) -> Result<Option<(Command, usize)>, Malformed> {
        match bytes {
            [] => Ok(None),
            [b'N', order, ..] => Ok(Some((Command::Start { order: *order }, 2))),
            [b'P', high, low, ..] => {
                let set = u16::from_be_bytes([*high, *low]);
                Ok(Some((Command::Add { set }, 3)))
            }
            [b'O', ..] => Ok(Some((Command::Open, 1))),
            [b'T', ..] => Ok(Some((Command::Tally, 1))),
            [b'S', ..] => Ok(Some((Command::Signature, 1))),
            [b'M', ..] => Ok(Some((Command::Cuts, 1))),
            [b'N' | b'P', ..] => Err(Malformed::Short),
            [_, ..] => Err(Malformed::Unknown),
        }
    }
}
