// Runs a whole script: reads its commands, carries them out one after another, and prints what they answer.
ghost use Rattle.std.specs.Prelude.{◌≡◌, OnOk};
ghost use Rattle.script.specs.Printing.{Prints};
ghost use Rattle.script.specs.Readers.{unread};
ghost use Rattle.script.specs.Rooms.{room_of};
ghost use Rattle.script.specs.Scripts.{Effects, read_from, script_of};
ghost use Rattle.script.specs.Transcripts.{Interpreted};

use crate::line::FaultLine;
use crate::output::Output;
use crate::reader::{LONGEST, Parse, Reader};

// A script of one language as it runs.
pub trait Session {
    type Command: Parse;

    // How far a script can have come.
    ghost Progress: { Type 0 };

    ghost stands: { Self → Progress → Type 0 };

    ghost effects: { Effects Self.Command Progress };

    // Carries out a command, and prints the line that answers it, if one does.
    // The places are two slices, since each contract would have to say of a struct of both that it still holds the same ones.
    fn answer<O: Output>(
        &mut self,
        place: usize,
        command: Self::Command,
        sets: &mut [u16],
        numbers: &mut [u64],
        out: &mut O,
    ) -> Result<(), O::Error>
        ensures stands { (p : Progress) → stands self.old p → stands self.new (effects.makes (room_of sets.old numbers.old) command p) }
        ensures sets { (p : Progress) → stands self.old p → sets.new ≡ effects.sets command p sets.old }
        ensures numbers { (p : Progress) → stands self.old p → numbers.new ≡ effects.numbers command p numbers.old }
        ensures printed { (p : Progress) → stands self.old p → OnOk result (Prints O.Output.printed out.old (effects.prints (room_of sets.old numbers.old) (record { place = place; command = command }) p) out.new) };
}

// Answers what `out` answers where a line could not be printed, and then stops.
pub fn interpret<S: Session, O: Output>(
    run: &mut S,
    bytes: &[u8],
    sets: &mut [u16],
    numbers: &mut [u64],
    out: &mut O,
) -> Result<(), O::Error>
    ensures { (p : S.Progress) → S.stands run.old p → OnOk result (Interpreted S.effects S.stands O.Output.printed (record { sets = sets.old; numbers = numbers.old }) (script_of S.Command.forms bytes.now) p out.old run.new out.new (record { sets = sets.new; numbers = numbers.new })) }
{
    match Reader::new(bytes) {
        Ok(mut reader) => each_command(run, &mut reader, sets, numbers, out),
        Err(why) => out.print(&FaultLine {
            place: LONGEST,
            number: why.number(),
        }),
    }
}

fn each_command<S: Session, O: Output>(
    run: &mut S,
    reader: &mut Reader,
    sets: &mut [u16],
    numbers: &mut [u64],
    out: &mut O,
) -> Result<(), O::Error>
    ensures { (p : S.Progress) → S.stands run.old p → OnOk result (Interpreted S.effects S.stands O.Output.printed (record { sets = sets.old; numbers = numbers.old }) (read_from S.Command.forms 0 reader.old.place (unread reader.old)) p out.old run.new out.new (record { sets = sets.new; numbers = numbers.new })) }
{
    loop {
        let place = reader.place();
        match reader.next() {
            Ok(None) => return Ok(()),
            Ok(Some(command)) => run.answer(place, command, sets, numbers, out)?,
            Err(why) => {
                return out.print(&FaultLine {
                    place,
                    number: why.number(),
                });
            }
        }
    }
}
