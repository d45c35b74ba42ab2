//! Ids of transactions by number. A stranger can try digests until the ids crowd one part of a table by
//! hash, so their numbers are kept in an ordered map: a look-up takes logarithmic time whatever they are.

ghost use Rattle.std.specs.Prelude.{◌≡◌, ◌<◌, ◌-◌, ◌^◌, ◌++◌, ◌∷◌, [], length, position, nat_eq, None, Some, slice_get, take, OnOk, OnErr};

use sp_ids::{Memory, TxId};
use std::alloc::Global;
use std::collections::BTreeMap;
use std::marker::Model;

/// Ids, each once. Contracts see the list of them.
#[derive(Drop)]
pub(crate) struct Ids {
    numbers: BTreeMap<TxId, u32>,
    list: Vec<TxId>,
}

impl Model for Ids {
    ghost use Rattle.std.specs.Prelude.{ℕ, List};
    ghost use Rattle.sp_carry.specs.Places.{HasPlaces};

    ghost Value = { List ℕ };

    ghost view = { λ ids. ids.list.items };

    ghost invariant = { λ ids. HasPlaces ids.numbers ids.list.items };
}

impl Ids {
    // None yet.
    pub(crate) fn new(alloc: Global) -> Ids
        ensures { result ≡ [] }
    {
        Ids {
            numbers: BTreeMap::new(alloc),
            list: Vec::new(alloc),
        }
    }

    // The number of an id.
    pub(crate) fn number_of(&self, id: &TxId) -> Option<u32>
        ensures { result ≡ position (nat_eq id.now) self.now }
    {
        self.numbers.get(id).copied()
    }

    // The id of a number.
    pub(crate) fn at(&self, number: u32) -> TxId
        requires { number < length self.now }
        ensures { slice_get self.now number ≡ Some result }
    {
        self.list[number as usize]
    }

    // One id more, which isn't there yet. After `Memory` they are as before.
    pub(crate) fn add(&mut self, id: TxId) -> Result<(), Memory>
        requires new { position (nat_eq id) self.old ≡ None }
        requires room { length self.old < 2 ^ 32 }
        ensures ok { OnOk result (self.new ≡ self.old ++ id ∷ []) }
        ensures err { OnErr result (self.new ≡ self.old) }
    {
        let number = self.list.len() as u32;
        self.list.reserve(1)?;
        self.numbers.insert(id, number)?;
        self.list.push_reserved(id);
        Ok(())
    }

    // Takes the last id back, which takes no memory.
    pub(crate) fn pop(&mut self)
        ensures { self.new ≡ take (length self.old - 1) self.old }
    {
        if let Some(id) = self.list.pop() {
            self.numbers.remove(&id);
        }
    }
}
