// A script as it runs: its stage, and beside it the drawing and what was opened from it.
ghost use Rattle.std.specs.Prelude.{◌≡◌, ℕ, ◌^◌, ◌<◌, true};
ghost use Rattle.structure.specs.Drawings.{drawing};
ghost use Rattle.structure.specs.Kinds.{path_list};
ghost use Rattle.structure.specs.Tables.{entry};
ghost use Rattle.script.specs.Stages.{is_open};

use crate::stage::Stage;
use structure::path_list::PathList;
use structure::table::Table;

mod answers;
pub mod calls;

#[derive(Drop)]
pub struct Run {
    // A plain tag: one match on it and the command serves all stages.
    stage: Stage,
    drawn: PathList,
    opened: Table,
    ghost order: { is_open stage ≡ true → opened.order.parts ≡ drawn.list.order.parts },
    ghost works: { (s : ℕ) → (is_open stage ≡ true) × (s < 2 ^ drawn.list.order.parts) → entry opened.words s ≡ (path_list (drawing drawn.list)).works s },
}
