// A structure drawn as cut sets: it works when each listed set has a working part.
ghost use Rattle.structure.specs.Kinds.{met};
ghost use Rattle.structure.specs.Monotony.{cut_list_monotone};

use crate::listed::{Listed, Reading};

#[derive(Clone, Copy)]
pub struct CutSets;

pub type CutList = Listed<CutSets>;

impl Reading for CutSets {
    ghost holds = { met };

    ghost monotone = { cut_list_monotone };

    fn holds(state: u32, sets: &[u16]) -> bool {
        sets.iter().all(|set| state & u32::from(*set) != 0)
    }
}
