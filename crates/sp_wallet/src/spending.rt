//! The spend of an amount.

ghost use Rattle.std.specs.Prelude.{◌≡◌, ◌≤◌, ◌<◌, ◌^◌, ℕ, Contains, IfOk, IsTrue, length};
ghost use Rattle.sp_tx.specs.declared.parts.Input.{Input};
ghost use Rattle.sp_pool.specs.Kept.{present};
ghost use Rattle.sp_carry.specs.Ledger.{is_sound, IsPlain, Ledger};
ghost use Rattle.sp_carry.specs.Money.{accepted_txs};
ghost use Rattle.sp_carry.specs.Payment.{payment_of};
ghost use Rattle.sp_engine.specs.Transactions.{ledger_by_id, ledger_of};
ghost use Rattle.sp_wallet.specs.Above.{IsAbove, IsUnspent};
ghost use Rattle.sp_wallet.specs.Choice.{candidates, NoneReaches};
ghost use Rattle.sp_wallet.specs.Keys.{keys_of};
ghost use Rattle.sp_wallet.specs.Spend.{Answers, spend_of};

use crate::fault::SpendFault;
use crate::gather::largest_first;
use crate::pay::pay;
use crate::preimages::Preimages;
use crate::reach::reach;
use sp_engine::Engine;
use sp_ids::{Lock, Memory};
use sp_tx::Tx;
use std::alloc::Global;

/// The most inputs of a transaction.
const MOST_INPUTS: usize = 16;

/// What a transaction's outputs stay below.
const AMOUNT_LIMIT: u128 = 1 << 63;

/// A transaction that pays an amount to a lock, out of the unspent outputs that the words unlock: as
/// few of the largest as reach the amount. What is more than the amount goes back to the lock of the
/// first word.
///
/// It takes the time of a pass over all outputs for each word, and of a sort of those found. That the
/// transaction will be accepted isn't said.
///
/// # Errors
///
/// `Poor` where no 16 or fewer of these outputs reach the amount, `Large` where those that are chosen
/// come to 2^63 or more, `Memory` where there was none.
pub fn spend(
    alloc: Global,
    engine: &Engine,
    words: &Preimages,
    amount: u64,
    to: Lock,
) -> Result<Tx, SpendFault>
    requires words { 1 ≤ length words.now }
    requires some { 1 ≤ amount }
    requires fits { amount < 2 ^ 63 }
    ensures value { Answers result (spend_of (ledger_by_id engine.now.profile engine.now.kept)
        (present engine.now.kept) (keys_of words.now) amount to) }
    ensures own { IsPlain (ledger_of engine.now.profile engine.now.kept) (present engine.now.kept) →
        Answers result (spend_of (ledger_of engine.now.profile engine.now.kept)
        (present engine.now.kept) (keys_of words.now) amount to) }
    ensures unspent { IfOk result (λ t.
        IsPlain (ledger_of engine.now.profile engine.now.kept) (present engine.now.kept) →
        (input : Input) → Contains t.inputs input →
        IsUnspent (ledger_of engine.now.profile engine.now.kept) (present engine.now.kept) input.from) }
    ensures sound { IfOk result (λ t.
        IsPlain (ledger_of engine.now.profile engine.now.kept) (present engine.now.kept) →
        (above : Ledger) (z : ℕ) →
        IsAbove (ledger_of engine.now.profile engine.now.kept) (present engine.now.kept) above z →
        IsTrue (is_sound above z (payment_of t))) }
    ensures fewest { IfOk result (λ t.
        IsPlain (ledger_of engine.now.profile engine.now.kept) (present engine.now.kept) →
        NoneReaches amount (length t.inputs) (candidates (keys_of words.now)
        (accepted_txs (ledger_of engine.now.profile engine.now.kept) (present engine.now.kept)))) }
{
    // Tells the proof what kept blocks are.
    let _kept = engine.kept_count();
    let mut coins = largest_first(alloc, engine, words.as_slice())?;
    coins.truncate(MOST_INPUTS);
    match reach(&coins, amount) {
        Err(reach) => Err(SpendFault::Poor { reach }),
        Ok((count, total)) => {
            if AMOUNT_LIMIT <= total {
                return Err(SpendFault::Large { total });
            }
            coins.truncate(count);
            let tx = pay(alloc, words.as_slice(), &coins, amount, total as u64, to)?;
            Ok(tx)
        }
    }
}
