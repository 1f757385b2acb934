// A structure drawn as path sets: it works when all parts of some listed set work.
ghost use Rattle.structure.specs.Kinds.{covered};
ghost use Rattle.structure.specs.Monotony.{path_list_monotone};

use crate::listed::{Listed, Reading};

#[derive(Clone, Copy)]
pub struct PathSets;

pub type PathList = Listed<PathSets>;

impl Reading for PathSets {
    ghost holds = { covered };

    ghost monotone = { path_list_monotone };

    fn holds(state: u32, sets: &[u16]) -> bool {
        sets.iter()
            .any(|set| state & u32::from(*set) == u32::from(*set))
    }
}
