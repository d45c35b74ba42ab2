//! A list of ids, which contracts see as the list of their numbers.

ghost use Rattle.std.specs.Prelude.{◌≡◌};

use crate::block_id::BlockId;
use std::marker::Model;

/// A list of ids of blocks.
#[derive(Drop)]
pub struct Ids {
    list: Vec<BlockId>,
}

impl Model for Ids {
    ghost use Rattle.std.specs.Prelude.{ℕ, List};

    ghost Value = { List ℕ };

    ghost view = { λ ids. ids.list.items };
}

impl Ids {
    /// These ids, in this order. It takes a bounded number of steps, as `as_slice` does.
    pub fn of(list: Vec<BlockId>) -> Ids
        ensures { result ≡ list.items }
    {
        Ids { list }
    }

    /// The ids, the first of them first.
    pub fn as_slice(&self) -> &[BlockId]
        ensures { result.now ≡ self.now }
    {
        self.list.as_slice()
    }
}
