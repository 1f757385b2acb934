// The two plans: a logger and a radio, 0 and 3, with one relay between them, or with either of two.
ghost use Rattle.std.specs.Prelude.{[], ◌∷◌};
ghost use Rattle.known.specs.Drawing.{PathsDrawn};

use known::draw::draw_paths;
use structure::path_list::PathList;
use structure::refusal::Refusal;

pub const PARTS: usize = 4;

// The relay chain goes through part 1.
const BY_ONE: u16 = 0b1011;

// Or through part 2.
const BY_TWO: u16 = 0b1101;

pub fn one_chain() -> Result<PathList, Refusal>
    ensures { PathsDrawn PARTS (BY_ONE ∷ []) result }
{
    draw_paths(PARTS, &[BY_ONE])
}

pub fn two_chains() -> Result<PathList, Refusal>
    ensures { PathsDrawn PARTS (BY_ONE ∷ BY_TWO ∷ []) result }
{
    draw_paths(PARTS, &[BY_ONE, BY_TWO])
}
