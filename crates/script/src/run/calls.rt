// Starting a run, and carrying out one command of it.
ghost use Rattle.std.specs.Prelude.{◌≡◌, length};
ghost use Rattle.script.specs.Language.{begun, numbers_after, sets_after, step};
ghost use Rattle.script.specs.Runs.{progress, said, Inside};
ghost use Rattle.script.specs.Rooms.{room_of};

use super::Run;
use crate::command::Command;
use crate::fault::Fault;
use crate::reply::Reply;
use crate::stage::Stage;
use analysis::minimal_sets::minimal_sets;
use analysis::role::Role;
use analysis::signature::signature;
use analysis::tally::tally;
use structure::path_list::PathList;
use structure::table::Table;

impl Run {
    pub fn new() -> Self
        ensures { progress result ≡ begun }
    {
        let drawn = PathList::new();
        let opened = Table::fill(&drawn);
        Run {
            stage: Stage::Blank,
            drawn,
            opened,
        }
    }

    // A command that is refused, or not taken in this stage, changes nothing but the places of a list that found too few.
    pub fn execute(
        &mut self,
        command: Command,
        sets: &mut [u16],
        numbers: &mut [u64],
    ) -> Result<Reply, Fault>
        ensures now { progress self.new ≡ (step (room_of sets.old numbers.old) command (progress self.old)).1 }
        ensures answer { said result sets.new numbers.new ≡ (step (room_of sets.old numbers.old) command (progress self.old)).0 }
        ensures sets { sets.new ≡ sets_after command (progress self.old) sets.old }
        ensures numbers { numbers.new ≡ numbers_after command (progress self.old) numbers.old }
        ensures within { Inside result (length sets.new) (length numbers.new) }
    {
        match (self.stage, command) {
            (Stage::Blank, Command::Start { order }) => {
                self.drawn.start(usize::from(order))?;
                self.stage = Stage::Drawing;
                Ok(Reply::Silent)
            }
            (Stage::Drawing, Command::Add { set }) => {
                self.drawn.add(set)?;
                Ok(Reply::Silent)
            }
            (Stage::Drawing, Command::Open) => {
                self.opened = Table::fill(&self.drawn);
                self.stage = Stage::Open;
                Ok(Reply::Silent)
            }
            (Stage::Open, Command::Tally) => Ok(Reply::Tally(tally(&self.opened, numbers)?)),
            (Stage::Open, Command::Signature) => {
                Ok(Reply::Signature(signature(&self.opened, numbers)?))
            }
            (Stage::Open, Command::Cuts) => {
                Ok(Reply::Cuts(minimal_sets(&self.opened, Role::Cut, sets)?))
            }
            _ => Err(Fault::Stage),
        }
    }
}
