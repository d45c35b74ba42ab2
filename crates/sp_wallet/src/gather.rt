//! The unspent outputs whose lock one of the words opens, the largest first.

ghost use Rattle.std.specs.Prelude.{◌≡◌, ℕ, IfOk, OnOk};
ghost use Rattle.std.specs.List.Sorted.{IsPermutation};
ghost use Rattle.sp_model.specs.Graph.{has, AreDistinct};
ghost use Rattle.sp_carry.specs.Payment.{amount_or_none};
ghost use Rattle.sp_money.specs.Locks.{with_id};
ghost use Rattle.sp_engine.specs.Transactions.{output_by_id};
ghost use Rattle.sp_wallet.specs.Choice.{candidates};
ghost use Rattle.sp_wallet.specs.Gathering.{accepted_by_id, coins_of, Gathers, IsRanking, left_under};
ghost use Rattle.sp_wallet.specs.Keys.{keys_of, opens};

use crate::candidate::Candidate;
use sp_engine::Engine;
use sp_ids::{Lock, Memory, Outpoint};
use sp_tx::Bytes;
use std::alloc::Global;
use std::cmp::Reverse;

// One more lock, if it isn't there.
fn note_lock(locks: &mut Vec<Lock>, lock: Lock) -> Result<(), Memory>
    ensures { OnOk result (locks.new.items ≡ with_id locks.old.items lock) }
{
    if !locks.contains(&lock) {
        locks.push(lock)?;
    }
    Ok(())
}

// The locks that the words open, each once.
fn locks_of(alloc: Global, words: &[Bytes]) -> Result<Vec<Lock>, Memory>
    ensures once { IfOk result (λ locks. AreDistinct locks.items) }
    ensures theirs { IfOk result (λ locks. (lock : ℕ) → has locks.items lock ≡ opens (keys_of words.now) lock) }
{
    let mut locks = Vec::new(alloc);
    'words: for word in words {
        note_lock(&mut locks, Lock::of(word.as_slice()))?;
    }
    Ok(locks)
}

// What an output is worth; 0 where there is none.
fn amount_of(engine: &Engine, name: &Outpoint) -> u64
    ensures { result ≡ amount_or_none (output_by_id engine.now.kept name.now) }
{
    match engine.output(name) {
        Some(output) => output.amount,
        None => 0,
    }
}

// Puts what is left under a lock behind the others.
fn add_under(engine: &Engine, lock: Lock, coins: &mut Vec<Candidate>) -> Result<(), Memory>
    ensures { OnOk result
        (Gathers engine.now.profile engine.now.kept lock coins.old.items coins.new.items) }
{
    // Tells the proof what kept blocks are.
    let _kept = engine.kept_count();
    let names = engine.unspent(&lock)?;
    'names: for name in &names {
        let amount = amount_of(engine, name);
        coins.push(Candidate {
            name: *name,
            amount,
            lock,
        })?;
    }
    Ok(())
}

// What is left under these locks.
fn all_under(alloc: Global, engine: &Engine, locks: &[Lock]) -> Result<Vec<Candidate>, Memory>
    requires once { AreDistinct locks.now }
    ensures { IfOk result (λ coins.
        IsPermutation (left_under engine.now.profile engine.now.kept locks.now)
        (coins_of coins.items)) }
{
    let mut coins = Vec::new(alloc);
    'locks: for lock in locks {
        add_under(engine, *lock, &mut coins)?;
    }
    Ok(coins)
}

// The larger amount first; of one amount, the lower outpoint.
fn sort(coins: &mut Vec<Candidate>) -> Result<(), Memory>
    ensures { OnOk result (IsRanking coins.old.items coins.new.items) }
{
    coins.sort_by_key(|coin| (Reverse(coin.amount), coin.name))?;
    Ok(())
}

/// The unspent outputs whose lock one of the words opens, the larger amount first, and of one amount
/// the lower outpoint. It takes the time of a pass over all outputs for each word, and of a sort.
pub(crate) fn largest_first(
    alloc: Global,
    engine: &Engine,
    words: &[Bytes],
) -> Result<Vec<Candidate>, Memory>
    ensures { IfOk result (λ coins.
        coins_of coins.items
        ≡ candidates (keys_of words.now) (accepted_by_id engine.now.profile engine.now.kept)) }
{
    let locks = locks_of(alloc, words)?;
    let mut coins = all_under(alloc, engine, &locks)?;
    sort(&mut coins)?;
    Ok(coins)
}
