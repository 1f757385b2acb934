// The bridge of five parts, and what is known of it and of other small stations.
ghost use Rattle.std.specs.Prelude.{◌≡◌, Ok, Err};
ghost use Rattle.structure.specs.Drawings.{drawing};
ghost use Rattle.known.specs.Known.{KnownStations};
ghost use Rattle.known.specs.Stations.{bridge_drawing};

use crate::draw::draw_paths;
use structure::path_list::PathList;
use structure::refusal::Refusal;

// Never refuses.
pub fn bridge() -> Result<PathList, Refusal>
    ensures drawn { elim result [ Ok paths ↦ drawing paths.list ≡ bridge_drawing | Err why ↦ ⊥ ] }
    ensures known { KnownStations }
{
    draw_paths(5, &[9, 18, 21, 14])
}
