// An order and up to 64 sets of parts: what path lists and cut lists are drawn with.
ghost use Rattle.std.specs.Prelude.{◌≤◌};

use crate::order::Order;

pub mod calls;

pub const CAPACITY: usize = 64;

#[derive(Clone, Copy)]
pub struct SetList {
    order: Order,
    // Counted by hand: a drawing is `Copy`, and `ArrayVec` is not.
    sets: [u16; CAPACITY],
    count: usize,
    ghost few: { count ≤ 64 },
}
