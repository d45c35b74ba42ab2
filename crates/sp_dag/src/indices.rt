//! The places of a block's pairs in the list of pairs, a type of its own so that contracts see a
//! table of them as lists.

ghost use Rattle.std.specs.Prelude.{◌≡◌, None, slice_index_or};

use std::marker::Model;

// For each block with a lower number, the index of its pair with this one, if they are unrelated.
#[derive(Drop)]
pub(crate) struct Indices {
    list: Vec<Option<u32>>,
}

impl Model for Indices {
    ghost use Rattle.std.specs.Prelude.{ℕ, List, Option};

    ghost Value = { List (Option ℕ) };

    ghost view = { λ indices. indices.list.items };
}

impl Indices {
    pub(crate) fn of(list: Vec<Option<u32>>) -> Indices
        ensures { result ≡ list.items }
    {
        Indices { list }
    }

    // The index at a number, none at one that isn't lower than the block's.
    pub(crate) fn at(&self, number: u16) -> Option<u32>
        ensures { result ≡ slice_index_or self.now number None }
    {
        match self.list.get(number as usize) {
            Some(index) => *index,
            None => None,
        }
    }
}
