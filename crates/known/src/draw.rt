// A path list drawn from its sets. A minimal list is drawn alike from a listing: one function for both would take both as an iterator, and be as long.
ghost use Rattle.known.specs.Drawing.{PathsDrawn};

use structure::path_list::PathList;
use structure::refusal::Refusal;

pub fn draw_paths(order: usize, sets: &[u16]) -> Result<PathList, Refusal>
    ensures { PathsDrawn order sets.now result }
{
    let mut paths = PathList::new();
    paths.start(order)?;
    for set in sets {
        paths.add(*set)?;
    }
    Ok(paths)
}
