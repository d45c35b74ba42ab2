//! Locks by number. Strangers choose locks byte for byte, so their numbers are kept in an ordered
//! map: a look-up takes logarithmic time whatever they choose.

ghost use Rattle.std.specs.Prelude.{◌≡◌, ◌<◌, ◌-◌, ◌^◌, ◌++◌, ◌∷◌, [], length, position, nat_eq, None, Some, slice_get, take, IfOk, OnOk, OnErr};
ghost use Rattle.sp_model.specs.Graph.{AreDistinct};

use sp_ids::{Lock, Memory};
use std::alloc::Global;
use std::collections::BTreeMap;
use std::marker::Model;

/// Locks, each once. Contracts see the list of them.
#[derive(Drop)]
pub(crate) struct Locks {
    numbers: BTreeMap<Lock, u32>,
    list: Vec<Lock>,
}

impl Model for Locks {
    ghost use Rattle.std.specs.Prelude.{ℕ, List};
    ghost use Rattle.sp_carry.specs.Places.{HasPlaces};

    ghost Value = { List ℕ };

    ghost view = { λ locks. locks.list.items };

    ghost invariant = { λ locks. HasPlaces locks.numbers locks.list.items };
}

impl Locks {
    // None yet.
    pub(crate) fn new(alloc: Global) -> Locks
        ensures { result ≡ [] }
    {
        Locks {
            numbers: BTreeMap::new(alloc),
            list: Vec::new(alloc),
        }
    }

    // How many there are.
    pub(crate) fn len(&self) -> usize
        ensures value { result ≡ length self.now }
        ensures once { AreDistinct self.now }
    {
        self.list.len()
    }

    // The number of a lock.
    pub(crate) fn number_of(&self, lock: &Lock) -> Option<u32>
        ensures value { result ≡ position (nat_eq lock.now) self.now }
        ensures once { AreDistinct self.now }
    {
        self.numbers.get(lock).copied()
    }

    // The lock of a number.
    pub(crate) fn at(&self, number: u32) -> Lock
        requires { number < length self.now }
        ensures value { slice_get self.now number ≡ Some result }
        ensures once { AreDistinct self.now }
    {
        self.list[number as usize]
    }

    // One lock more, which isn't there yet, and its number. After `Memory` they are as before.
    pub(crate) fn add(&mut self, lock: Lock) -> Result<u32, Memory>
        requires new { position (nat_eq lock) self.old ≡ None }
        requires room { length self.old < 2 ^ 32 }
        ensures ok { OnOk result (self.new ≡ self.old ++ lock ∷ []) }
        ensures number { IfOk result (λ number. number ≡ length self.old) }
        ensures err { OnErr result (self.new ≡ self.old) }
    {
        let number = self.len() as u32;
        self.list.reserve(1)?;
        self.numbers.insert(lock, number)?;
        self.list.push_reserved(lock);
        Ok(number)
    }

    // Takes the last lock back.
    fn pop(&mut self)
        ensures { self.new ≡ take (length self.old - 1) self.old }
    {
        if let Some(lock) = self.list.pop() {
            self.numbers.remove(&lock);
        }
    }

    // Takes the last locks back, down to a number of them.
    pub(crate) fn truncate(&mut self, len: usize)
        ensures { self.new ≡ take len self.old }
    {
        'locks: while self.len() > len {
            self.pop();
        }
    }
}
