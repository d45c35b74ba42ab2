//! What the engine says of transactions, and of what they leave under each lock. All of it stands
//! ready: no answer takes memory but the list of unspent outputs.

ghost use Rattle.std.specs.Prelude.{◌≡◌, ◌≤◌, ◌<◌, ℕ, false, length, slice_get, Some, ◌↔◌, IfOk, IsFalse};
ghost use Rattle.std.specs.List.Sorted.{IsPermutation, IsSorted};
ghost use Rattle.std.specs.Option.{option_copied};
ghost use Rattle.sp_ids.specs.Outpoints.{outpoint_cmp};
ghost use Rattle.sp_model.specs.Graph.{has, AreDistinct};
ghost use Rattle.sp_pool.specs.Kept.{present};
ghost use Rattle.sp_carry.specs.declared.state.TxState.{TxState};
ghost use Rattle.sp_carry.specs.Ledger.{carried, is_accepted, is_carried, state, IsPlain};
ghost use Rattle.sp_carry.specs.Money.{accepted_txs, balance};
ghost use Rattle.sp_carry.specs.Payment.{output_at};
ghost use Rattle.sp_money.specs.Names.{names_under};
ghost use Rattle.sp_engine.specs.Transactions.{balance_by_id, ledger_by_id, ledger_of, locks, names_by_id, output_by_id, state_of, tx_ids};

use crate::engine::Engine;
use sp_carry::TxState;
use sp_ids::{Lock, Memory, Outpoint, TxId};
use sp_tx::Output;

impl Engine {
    /// What the present blocks say of a transaction: accepted, rejected, or carried by none of them.
    /// It stands ready, so it takes about the time of a look-up by hash, and no memory.
    ///
    /// The transaction of an id is the first one that has it, in order of presence and then of place.
    /// Where no two different transactions of the present blocks have one id, which would take two
    /// inputs of one SHA-256, each is its own.
    pub fn tx_state(&self, id: &TxId) -> TxState
        ensures value { result ≡ state_of self.now.profile self.now.kept id.now }
        ensures absent { (result ≡ TxState.Absent) ↔
            IsFalse (is_carried (ledger_of self.now.profile self.now.kept) (present self.now.kept) id.now) }
        ensures state { IsPlain (ledger_of self.now.profile self.now.kept) (present self.now.kept) →
            result ≡ state (ledger_of self.now.profile self.now.kept) (present self.now.kept) id.now }
    {
        match self.carriers.tx_of(id) {
            None => TxState::Absent,
            Some(tx) => {
                if self.accepted.is_accepted(tx) {
                    TxState::Accepted
                } else {
                    TxState::Rejected
                }
            }
        }
    }

    /// How many transactions the present blocks carry, from 0 to 131,072. One that several of them
    /// carry counts once. What stands of the list of their ids stands here, for each caller.
    pub fn tx_count(&self) -> u32
        ensures count { result ≡ length (tx_ids self.now.kept) }
        ensures ids { (id : ℕ) → has (tx_ids self.now.kept) id
            ≡ is_carried (ledger_of self.now.profile self.now.kept) (present self.now.kept) id }
        ensures once { AreDistinct (tx_ids self.now.kept) }
        ensures few { result ≤ 131072 }
    {
        self.carriers.tx_count()
    }

    /// The id of the transaction of this number, and whether it is accepted. Transactions are
    /// numbered from 0 in the order in which their blocks became present, and in a block in that of
    /// their places. It takes a bounded number of steps.
    ///
    /// The transaction of an id is the first one that has it, as in `tx_state`.
    pub fn tx_at(&self, i: u32) -> (TxId, bool)
        requires within { i < length (tx_ids self.now.kept) }
        ensures id { slice_get (tx_ids self.now.kept) i ≡ Some result.0 }
        ensures value { result.1 ≡
            is_accepted (ledger_by_id self.now.profile self.now.kept) (present self.now.kept) result.0 }
        ensures accepted { IsPlain (ledger_of self.now.profile self.now.kept) (present self.now.kept) →
            result.1 ≡ is_accepted (ledger_of self.now.profile self.now.kept) (present self.now.kept) result.0 }
    {
        (self.carriers.tx_id(i), self.accepted.is_accepted(i))
    }

    /// What is left under a lock: the sum of the amounts of all outputs with this lock whose
    /// transaction is accepted and which no accepted transaction spends; 0 where there is none. It
    /// stands ready, so it takes about the time of a look-up in an ordered map, and no memory.
    ///
    /// The transaction of an id is the first one that has it, as in `tx_state`.
    pub fn balance(&self, lock: &Lock) -> u128
        ensures value { result ≡ balance_by_id self.now.profile self.now.kept lock.now }
        ensures balance { IsPlain (ledger_of self.now.profile self.now.kept) (present self.now.kept) →
            result ≡ balance (ledger_of self.now.profile self.now.kept) (present self.now.kept) lock.now }
    {
        self.purse.balance(lock)
    }

    /// How many different locks the outputs of the present blocks' transactions have, from 0 to
    /// 2,097,152. What stands of their list stands here, for each caller: each lock under which
    /// anything is left is among them.
    pub fn lock_count(&self) -> u32
        ensures count { result ≡ length (locks self.now.kept) }
        ensures once { AreDistinct (locks self.now.kept) }
        ensures paid { (lock : ℕ) → has (locks self.now.kept) lock ≡ false →
            balance_by_id self.now.profile self.now.kept lock ≡ 0 }
        ensures few { result ≤ 2097152 }
    {
        self.purse.lock_count()
    }

    /// The lock of this number, and what is left under it. Locks are numbered from 0 in the order of
    /// the transactions whose outputs have them, and then in that of the outputs. It takes a bounded
    /// number of steps.
    pub fn lock_at(&self, i: u32) -> (Lock, u128)
        requires within { i < length (locks self.now.kept) }
        ensures lock { slice_get (locks self.now.kept) i ≡ Some result.0 }
        ensures value { result.1 ≡ balance_by_id self.now.profile self.now.kept result.0 }
        ensures balance { IsPlain (ledger_of self.now.profile self.now.kept) (present self.now.kept) →
            result.1 ≡ balance (ledger_of self.now.profile self.now.kept) (present self.now.kept) result.0 }
    {
        self.purse.lock_at(i)
    }

    /// The names of the outputs under a lock that are unspent, ascending: those whose transaction is
    /// accepted and which no accepted transaction spends. It goes over all outputs once, and then
    /// takes the time of a sort of the answer.
    ///
    /// The transaction of an id is the first one that has it, as in `tx_state`.
    ///
    /// # Errors
    ///
    /// Memory was refused.
    pub fn unspent(&self, lock: &Lock) -> Result<Vec<Outpoint>, Memory>
        ensures names { IfOk result (λ names. IsPermutation (names_by_id self.now.profile self.now.kept lock.now) names.items) }
        ensures ascending { IfOk result (λ names. IsSorted outpoint_cmp names.items) }
        ensures own { IsPlain (ledger_of self.now.profile self.now.kept) (present self.now.kept) → IfOk result (λ names.
            IsPermutation (names_under (accepted_txs (ledger_of self.now.profile self.now.kept) (present self.now.kept)) lock.now) names.items) }
    {
        self.purse.unspent(lock)
    }

    /// The output that an outpoint names, spent or not, or `None` where no present block carries its
    /// transaction or that has fewer outputs. It takes about the time of a look-up by hash.
    ///
    /// The transaction of an id is the first one that has it, as in `tx_state`.
    pub fn output(&self, from: &Outpoint) -> Option<&Output>
        ensures value { option_copied result ≡ output_by_id self.now.kept from.now }
        ensures own { IsPlain (ledger_of self.now.profile self.now.kept) (present self.now.kept) → option_copied result
            ≡ output_at (carried (ledger_of self.now.profile self.now.kept) (present self.now.kept)) from.now }
    {
        match self.carriers.tx_of(&from.tx) {
            None => None,
            Some(tx) => {
                let outputs = self.carriers.tx(tx).outputs.as_slice();
                outputs.get(usize::from(from.index))
            }
        }
    }
}
