//! The tables of a purse: outputs in slots, the totals of locks, and the flags of transactions. A
//! slot is put with the total of its lock, so that the totals are always those of the slots.

ghost use Rattle.std.specs.Prelude.{◌≡◌, ◌<◌, length, slice_index, slice_index_or, slice_set};
ghost use Rattle.sp_money.specs.declared.slot.Slot.{Slot};
ghost use Rattle.sp_money.specs.Held.{nothing};
ghost use Rattle.sp_money.specs.Totals.{total_of};
ghost use Rattle.sp_money.specs.Places.{shifted, CanShift};
ghost use Rattle.sp_money.specs.Kept.{held_of, IsKept};

use crate::locks::Locks;
use crate::slot::Slot;
use std::alloc::Global;

// The outputs of all transactions in order, what is left under each lock, the place of each
// transaction's first output, which transactions are accepted, and the locks.
pub(crate) struct Store {
    pub(crate) slots: Vec<Slot>,
    pub(crate) totals: Vec<u128>,
    pub(crate) starts: Vec<u32>,
    pub(crate) accepted: Vec<bool>,
    pub(crate) locks: Locks,
}

// Written out, so that where a purse is let go there is one call, and not one for each table.
impl Drop for Store {
    fn drop(self) {
        let Store {
            slots: _,
            totals: _,
            starts: _,
            accepted: _,
            locks: _,
        } = self;
    }
}

// One spender more, or one less.
fn shifted(now: bool, count: u32) -> u32
    requires { CanShift now count }
    ensures { result ≡ shifted now count }
{
    if now { count + 1 } else { count - 1 }
}

impl Store {
    // Nothing yet.
    pub(crate) fn new(alloc: Global) -> Store
        ensures kept { IsKept result }
        ensures held { held_of result ≡ nothing }
    {
        Store {
            slots: Vec::new(alloc),
            totals: Vec::new(alloc),
            starts: Vec::new(alloc),
            accepted: Vec::new(alloc),
            locks: Locks::new(alloc),
        }
    }

    // What is left under the lock of a number, in one step. It is what adding up the slots now would
    // give.
    pub(crate) fn total(&self, lock: u32) -> u128
        requires kept { IsKept self.now }
        requires lock { lock < length self.now.locks }
        ensures { result ≡ total_of lock self.now.slots.items }
    {
        self.totals[lock as usize]
    }

    // Puts a slot of the same output at the place.
    fn put(&mut self, place: usize, slot: Slot)
        requires kept { IsKept self.old }
        requires place { place < length self.old.slots.items }
        requires amount { (slice_index_or self.old.slots.items place slot).amount ≡ slot.amount }
        requires lock { (slice_index_or self.old.slots.items place slot).lock ≡ slot.lock }
        ensures kept { IsKept self.new }
        ensures slots { self.new.slots.items ≡ slice_set self.old.slots.items place slot }
        ensures starts { self.new.starts.items ≡ self.old.starts.items }
        ensures accepted { self.new.accepted.items ≡ self.old.accepted.items }
        ensures locks { self.new.locks ≡ self.old.locks }
    {
        let before = self.slots[place].left() as u128;
        let after = slot.left() as u128;
        let lock = slot.lock as usize;
        self.slots[place] = slot;
        self.totals[lock] = self.totals[lock] - before + after;
    }

    // The output at the place becomes live, or stops being so.
    pub(crate) fn set_live_at(&mut self, place: usize, now: bool)
        requires kept { IsKept self.old }
        requires place { place < length self.old.slots.items }
        ensures kept { IsKept self.new }
        ensures held { held_of self.new
            ≡ record (held_of self.old) { live = slice_set (held_of self.old).live place now } }
    {
        let slot = self.slots[place];
        self.put(place, Slot { live: now, ..slot });
    }

    // The output at the place has one spender more, or one less.
    pub(crate) fn count_at(&mut self, place: usize, now: bool)
        requires kept { IsKept self.old }
        requires place { place < length self.old.slots.items }
        requires room { CanShift now (slice_index (held_of self.old).spenders place) }
        ensures kept { IsKept self.new }
        ensures held { held_of self.new ≡ record (held_of self.old) {
          spenders =
              slice_set (held_of self.old).spenders place (shifted now (slice_index (held_of self.old).spenders place));
        } }
    {
        let slot = self.slots[place];
        self.put(
            place,
            Slot {
                spenders: shifted(now, slot.spenders),
                ..slot
            },
        );
    }
}
