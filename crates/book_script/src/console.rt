// Runs a script on a book from where it is read, for programs.
ghost use Rattle.std.specs.Prelude.{ℕ, List, OnOk};
ghost use Rattle.script.specs.Scripts.{script_of};
ghost use Rattle.script.specs.Sources.{RunFrom, console_room};
ghost use Rattle.book_script.specs.Answers.{effects};
ghost use Rattle.book_script.specs.Forms.{forms};
ghost use Rattle.book_script.specs.Histories.{OfHistory};
ghost use Rattle.book_script.specs.Language.{Progress};
ghost use Rattle.book_script.specs.Runs.{Stands};

use crate::run::Run;
use std::io;
use std::io::Read;

pub fn run_from<R: Read>(rt: &HostRuntime, source: &mut R, run: &mut Run) -> io::Result<()>
    ensures ran { (p : Progress) → Stands run.old p → OnOk result (RunFrom effects Stands forms p (R.remaining source.old) (R.remaining source.new) run.new) }
    ensures history { (bytes : List ℕ) → OfHistory console_room (script_of forms bytes).commands }
{
    script::console::run_from(rt, source, run)
}
