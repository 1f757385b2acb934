// A run as a session: what a command answers, printed.
ghost use Rattle.std.specs.Prelude.{◌≡◌};
ghost use Rattle.script.specs.Answers.{effects};
ghost use Rattle.script.specs.Language.{Progress};
ghost use Rattle.script.specs.Runs.{progress};

use super::Run;
use crate::command::Command;
use crate::interpreter::Session;
use crate::line::{FaultLine, RowKind, print_row};
use crate::output::Output;
use crate::reply::Reply;

impl Session for Run {
    type Command = Command;

    ghost Progress = { Progress };

    ghost stands = { λ run p. progress run ≡ p };

    ghost effects = { effects };

    fn answer<O: Output>(
        &mut self,
        place: usize,
        command: Command,
        sets: &mut [u16],
        numbers: &mut [u64],
        out: &mut O,
    ) -> Result<(), O::Error> {
        match self.execute(command, sets, numbers) {
            Ok(Reply::Silent) => Ok(()),
            Ok(Reply::Tally(count)) => print_row(RowKind::Tally, &numbers[..count], out),
            Ok(Reply::Signature(count)) => print_row(RowKind::Signature, &numbers[..count], out),
            Ok(Reply::Cuts(count)) => print_row(RowKind::Cuts, &sets[..count], out),
            Err(fault) => out.print(&FaultLine {
                place,
                number: fault.number(),
            }),
        }
    }
}
