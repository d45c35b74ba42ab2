//! Entries for new transactions, their outputs and locks. After a refusal of memory the last ones
//! are taken back.

ghost use Rattle.std.specs.Prelude.{◌≡◌, ◌+◌, ◌-◌, ◌*◌, ◌<◌, ◌≤◌, ◌++◌, ◌∷◌, [], ◌^◌, length, false, count_by, take, replicate, slice_get, Some, IfOk, OnOk, OnErr};
ghost use Rattle.sp_carry.specs.Lookups.{spenders_in};
ghost use Rattle.sp_carry.specs.Carried.{tx_at};
ghost use Rattle.sp_carry.specs.Money.{Coin, coins_from};
ghost use Rattle.sp_carry.specs.Flags.{is_set};
ghost use Rattle.sp_money.specs.Locks.{with_id};
ghost use Rattle.sp_money.specs.Held.{IsOf};
ghost use Rattle.sp_money.specs.Totals.{AreTotals};
ghost use Rattle.sp_money.specs.Kept.{held_of, IsEarly, IsKept};
ghost use Rattle.sp_money.specs.Growth.{set_spenders, with_outputs, with_tx, GoesOn, IsFront, IsLonger};

use crate::slot::Slot;
use crate::store::Store;
use sp_carry::{Carriers, is_set};
use sp_ids::{Lock, Memory, Outpoint, TxId};
use sp_tx::Output;

// How many of these transactions have their flag set.
fn count_set(flags: &[bool], txs: &[u32]) -> u32
    requires { length txs.now < 2 ^ 32 }
    ensures { result ≡ count_by (is_set flags.now) txs.now }
{
    let mut count = 0;
    'txs: for tx in txs {
        if is_set(flags, *tx) {
            count += 1;
        }
    }
    count
}

impl Store {
    // The number of a lock, which is a new one where the lock is new. After `Memory` all is as
    // before.
    fn lock_number(&mut self, lock: Lock) -> Result<u32, Memory>
        requires totals { AreTotals self.old.slots.items self.old.totals.items }
        requires long { length self.old.totals.items ≡ length self.old.locks }
        requires room { length self.old.locks < 2 ^ 32 }
        ensures number { IfOk result (λ n. slice_get self.new.locks n ≡ Some lock) }
        ensures locks { OnOk result (self.new.locks ≡ with_id self.old.locks lock) }
        ensures totals { AreTotals self.old.slots.items self.new.totals.items }
        ensures longer { GoesOn self.old.totals.items self.new.totals.items }
        ensures long { length self.new.totals.items ≡ length self.new.locks }
        ensures slots { self.new.slots ≡ self.old.slots }
        ensures starts { self.new.starts.items ≡ self.old.starts.items }
        ensures accepted { self.new.accepted.items ≡ self.old.accepted.items }
        ensures err { OnErr result (self.new.locks ≡ self.old.locks) }
    {
        match self.locks.number_of(&lock) {
            Some(number) => Ok(number),
            None => {
                self.totals.reserve(1)?;
                let number = self.locks.add(lock)?;
                self.totals.push_reserved(0);
                Ok(number)
            }
        }
    }

    // One output more, of a transaction that isn't accepted. After `Memory` all is as before.
    fn add_output(
        &mut self,
        name: Outpoint,
        amount: u64,
        lock: Lock,
        spenders: u32,
    ) -> Result<(), Memory>
        requires kept { IsKept self.old }
        requires room { length self.old.slots.items < 16 * length self.old.accepted.items }
        ensures kept { IsKept self.new }
        ensures longer { IsLonger self.old self.new }
        ensures count { OnOk result (length self.new.slots.items ≡ length self.old.slots.items + 1) }
        ensures held { OnOk result (held_of self.new ≡ with_outputs (λ c. spenders) (held_of self.old)
            (record { name = name; amount = amount; lock = lock } ∷ [])) }
    {
        self.slots.reserve(1)?;
        let lock = self.lock_number(lock)?;
        self.slots.push_reserved(Slot {
            name,
            live: false,
            lock,
            amount,
            spenders,
        });
        Ok(())
    }

    // By how many accepted transactions an output is spent.
    fn spender_count(&self, carriers: &Carriers, from: &Outpoint) -> u32
        ensures { result ≡ count_by (is_set self.now.accepted.items) (spenders_in carriers.now.txs from.now) }
    {
        // This call's contract says how few transactions there are.
        let _txs = carriers.tx_count();
        count_set(&self.accepted, carriers.spenders_of(from))
    }

    // The outputs of a transaction that isn't accepted. After `Memory` some of them are there.
    fn add_outputs(
        &mut self,
        carriers: &Carriers,
        id: TxId,
        outputs: &[Output],
    ) -> Result<(), Memory>
        requires kept { IsKept self.old }
        requires few { length outputs.now ≤ 16 }
        requires room { length self.old.slots.items + length outputs.now ≤ 16 * length self.old.accepted.items }
        ensures kept { IsKept self.new }
        ensures longer { IsLonger self.old self.new }
        ensures held { OnOk result (held_of self.new
            ≡ with_outputs (set_spenders carriers.now.txs self.old.accepted.items) (held_of self.old) (coins_from id 0 outputs.now)) }
    {
        'outputs: for index in 0..outputs.len() {
            let name = Outpoint {
                tx: id,
                index: index as u8,
            };
            let spenders = self.spender_count(carriers, &name);
            let output = &outputs[index];
            self.add_output(name, output.amount, output.lock, spenders)?;
        }
        Ok(())
    }

    // The next transaction, which isn't accepted. After `Memory` it is there in part.
    fn add_tx(&mut self, carriers: &Carriers, tx: u32) -> Result<(), Memory>
        requires kept { IsKept self.old }
        requires next { tx ≡ length self.old.accepted.items }
        requires there { tx < length carriers.now.txs }
        ensures kept { OnOk result (IsKept self.new) }
        ensures longer { IsLonger self.old self.new }
        ensures held { OnOk result (held_of self.new
            ≡ with_tx carriers.now.txs (held_of self.old) (tx_at carriers.now tx)) }
    {
        // This call's contract says how few transactions there are.
        let _txs = carriers.tx_count();
        self.starts.reserve(1)?;
        self.accepted.reserve(1)?;
        self.starts.push_reserved(self.slots.len() as u32);
        self.accepted.push_reserved(false);
        let outputs = carriers.tx(tx).outputs.as_slice();
        self.add_outputs(carriers, carriers.tx_id(tx), outputs)
    }

    // All transactions behind those that are there. After `Memory` some of them are there.
    pub(crate) fn add_txs(&mut self, carriers: &Carriers) -> Result<(), Memory>
        requires kept { IsKept self.old }
        requires few { length self.old.accepted.items ≤ length carriers.now.txs }
        requires of { IsOf (take (length self.old.accepted.items) carriers.now.txs) (held_of self.old) }
        ensures kept { OnOk result (IsKept self.new) }
        ensures early { IsEarly self.old → OnOk result (IsEarly self.new) }
        ensures longer { IsLonger self.old self.new }
        ensures of { OnOk result (IsOf carriers.now.txs (held_of self.new)) }
        ensures accepted { OnOk result (self.new.accepted.items ≡ self.old.accepted.items
            ++ replicate (length carriers.now.txs - length self.old.accepted.items) false) }
    {
        let first = self.accepted.len() as u32;
        'txs: for tx in first..carriers.tx_count() {
            self.add_tx(carriers, tx)?;
        }
        Ok(())
    }

    // Takes the last entries back, down to so many of each.
    pub(crate) fn take_back(&mut self, slots: usize, txs: usize, locks: usize)
        ensures { IsFront self.old slots txs locks self.new }
    {
        self.slots.truncate(slots);
        self.totals.truncate(locks);
        self.starts.truncate(txs);
        self.accepted.truncate(txs);
        self.locks.truncate(locks);
    }
}
