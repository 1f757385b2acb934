// Every yes and no of a structure of up to 16 parts, packed 64 to a word; no table that can exist is not monotone.
ghost use Rattle.std.specs.Prelude.{◌≡◌, ℕ, true};
ghost use Rattle.structure.specs.Meanings.{Raised};
ghost use Rattle.structure.specs.Tables.{entry};

use crate::order::Order;

pub mod calls;

const WORDS: usize = 1024;

#[derive(Drop)]
pub struct Table {
    order: Order,
    words: [u64; WORDS],
    ghost monotone: { (x y : ℕ) → Raised order.parts x y × (entry words x ≡ true) → entry words y ≡ true },
}
