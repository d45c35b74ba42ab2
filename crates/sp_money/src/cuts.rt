//! What is left of a purse where the last transactions are taken back.

ghost use Rattle.std.specs.Prelude.{◌≡◌, ◌≤◌, ℕ, false, List, length, take};
ghost use Rattle.sp_tx.specs.Parts.{Transaction};
ghost use Rattle.sp_carry.specs.Flags.{is_set};
ghost use Rattle.sp_money.specs.Held.{coins_of, IsOf};
ghost use Rattle.sp_money.specs.Kept.{held_of, IsEarly, IsKept};
ghost use Rattle.sp_money.specs.Locks.{locks_of};

use crate::store::Store;

impl Store {
    // How many slots the first transactions have.
    fn slot_count(&self, txs: usize) -> usize
        requires kept { IsKept self.now }
        ensures within { result ≤ length self.now.slots.items }
        ensures value { (list : List Transaction) → IsOf list (held_of self.now) →
            result ≡ length (coins_of (take txs list)) }
    {
        if txs < self.starts.len() {
            (self.starts[txs] as usize).min(self.slots.len())
        } else {
            self.slots.len()
        }
    }

    // Leaves the first transactions, of which none behind them is accepted, and the first locks, which
    // are as many as their outputs have.
    pub(crate) fn cut(&mut self, txs: usize, locks: usize)
        requires kept { IsKept self.old }
        requires early { IsEarly self.old }
        requires within { txs ≤ length self.old.accepted.items }
        requires none { (tx : ℕ) → txs ≤ tx → is_set self.old.accepted.items tx ≡ false }
        requires of { (list : List Transaction) × IsOf list (held_of self.old)
            × (locks ≡ length (locks_of (take txs list))) }
        ensures kept { IsKept self.new }
        ensures early { IsEarly self.new }
        ensures of { (list : List Transaction) → IsOf list (held_of self.old) →
            IsOf (take txs list) (held_of self.new) }
        ensures accepted { self.new.accepted.items ≡ take txs self.old.accepted.items }
    {
        // Tells the proof that no lock stands twice.
        let _locks = self.locks.len();
        let slots = self.slot_count(txs);
        self.take_back(slots, txs, locks);
    }
}
