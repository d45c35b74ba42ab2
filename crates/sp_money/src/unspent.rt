//! The unspent outputs under a lock.

ghost use Rattle.std.specs.Prelude.{◌≡◌, IfOk, OnOk, OnErr};
ghost use Rattle.sp_money.specs.Names.{is_left_under, left_names};

use crate::slot::Slot;
use crate::store::Store;
use sp_ids::Outpoint;
use std::alloc::{AllocError, Global};

impl Slot {
    // Whether it is left under the lock of this number.
    fn is_left_under(&self, lock: u32) -> bool
        ensures { result ≡ is_left_under lock self.now }
    {
        self.lock == lock && self.is_left()
    }
}

impl Store {
    // The names of the outputs that are left under the lock of this number, in the order of the
    // slots.
    pub(crate) fn names_left(&self, alloc: Global, lock: u32) -> Result<Vec<Outpoint>, AllocError>
        ensures { IfOk result (λ names. names.items ≡ left_names lock self.now.slots.items) }
    {
        let mut names = Vec::new(alloc);
        'slots: for slot in &self.slots {
            if slot.is_left_under(lock) {
                names.push(slot.name)?;
            }
        }
        Ok(names)
    }
}
