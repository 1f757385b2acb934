// Runs a whole script on a book.
ghost use Rattle.std.specs.Prelude.{◌≡◌, OnOk};
ghost use Rattle.script.specs.Rooms.{room_of};
ghost use Rattle.script.specs.Scripts.{script_of};
ghost use Rattle.script.specs.Transcripts.{Interpreted};
ghost use Rattle.book_script.specs.Answers.{effects};
ghost use Rattle.book_script.specs.Forms.{forms};
ghost use Rattle.book_script.specs.Histories.{OfHistory};
ghost use Rattle.book_script.specs.Language.{Progress};
ghost use Rattle.book_script.specs.Runs.{Stands};

use crate::output::Output;
use crate::run::Run;

// Answers what `out` answers where a line could not be printed, and then stops.
pub fn interpret<O: Output>(
    run: &mut Run,
    bytes: &[u8],
    sets: &mut [u16],
    numbers: &mut [u64],
    out: &mut O,
) -> Result<(), O::Error>
    ensures interpreted { (p : Progress) → Stands run.old p → OnOk result (Interpreted effects Stands O.Output.printed (record { sets = sets.old; numbers = numbers.old }) (script_of forms bytes.now) p out.old run.new out.new (record { sets = sets.new; numbers = numbers.new })) }
    ensures history { OfHistory (room_of sets.old numbers.old) (script_of forms bytes.now).commands }
{
    script::interpreter::interpret(run, bytes, sets, numbers, out)
}
