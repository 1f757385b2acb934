// How many parts a structure has.
ghost use Rattle.std.specs.Prelude.{◌≤◌};

pub mod calls;

#[derive(Clone, Copy, Debug, PartialEq, Eq)]
pub struct Order {
    parts: usize,
    ghost low: { 1 ≤ parts },
    ghost high: { parts ≤ 16 },
}
