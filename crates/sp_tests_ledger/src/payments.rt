//! Transactions by number, a source before its spenders: what the tests of acceptance, of conflicts, of
//! balances and of the purse stand on.

use sp_fixtures::NOBODY;
use sp_ids::{Lock, Outpoint, TxId};
use sp_tx::{Bytes, Input, Inputs, Output, Outputs, Tx, Txs, id};
use std::alloc::Global;
use std::test::Fail;

/// The bytes that open a lock; each is the preimage of its owner's.
pub const ALICE: u8 = 1;

pub const BOB: u8 = 2;

pub const CAROL: u8 = 3;

pub const DAVE: u8 = 4;

pub const EVE: u8 = 5;

/// An input: the number of the payment that it spends from, the output's index, and a preimage.
type Spend = (usize, u8, u8);

/// An output: its amount, and the preimage of its lock.
pub type Paid = (u64, u8);

/// The inputs and the outputs of a transaction.
pub type Payment = (&'static [Spend], &'static [Paid]);

/// Transactions by number, a source before its spenders.
pub const PAYMENTS: &[Payment] = &[
    // 0 is what genesis grants.
    (&[], &[(100, ALICE)]),
    // 1 and 2 spend the same output, and 3 what 1 pays.
    (&[(0, 0, ALICE)], &[(100, BOB)]),
    (&[(0, 0, ALICE)], &[(100, CAROL)]),
    (&[(1, 0, BOB)], &[(100, DAVE)]),
    // Another's preimage, and more than there is.
    (&[(0, 0, EVE)], &[(100, EVE)]),
    (&[(0, 0, ALICE)], &[(101, EVE)]),
    // An output that isn't there.
    (&[(0, 1, ALICE)], &[(1, BOB)]),
    // 7 to 16 each spend what the one before pays.
    (&[(0, 0, ALICE)], &[(100, ALICE)]),
    (&[(7, 0, ALICE)], &[(100, ALICE)]),
    (&[(8, 0, ALICE)], &[(100, ALICE)]),
    (&[(9, 0, ALICE)], &[(100, ALICE)]),
    (&[(10, 0, ALICE)], &[(100, ALICE)]),
    (&[(11, 0, ALICE)], &[(100, ALICE)]),
    (&[(12, 0, ALICE)], &[(100, ALICE)]),
    (&[(13, 0, ALICE)], &[(100, ALICE)]),
    (&[(14, 0, ALICE)], &[(100, ALICE)]),
    (&[(15, 0, ALICE)], &[(100, ALICE)]),
    // 17 pays two, whom 18 and 19 spend together, 19 more than there is. 20 spends one of them.
    (&[(0, 0, ALICE)], &[(60, ALICE), (40, BOB)]),
    (&[(17, 0, ALICE), (17, 1, BOB)], &[(100, CAROL)]),
    (&[(17, 0, ALICE), (17, 1, BOB)], &[(101, CAROL)]),
    (&[(17, 1, BOB)], &[(39, DAVE)]),
    // 21 spends an output of a transaction that nobody has.
    (&[(99, 0, ALICE)], &[(1, ALICE)]),
    // 22 to 24 are grants, and 25 to 27 pay them to Dave. 28 spends the last of them too.
    (&[], &[(10, ALICE)]),
    (&[], &[(20, ALICE)]),
    (&[], &[(30, ALICE)]),
    (&[(22, 0, ALICE)], &[(10, DAVE)]),
    (&[(23, 0, ALICE)], &[(20, DAVE)]),
    (&[(24, 0, ALICE)], &[(30, DAVE)]),
    (&[(24, 0, ALICE)], &[(30, EVE)]),
    // 29 pays Bob twice, and 30 spends the second of these.
    (&[(0, 0, ALICE)], &[(60, BOB), (30, CAROL), (10, BOB)]),
    (&[(29, 2, BOB)], &[(10, DAVE)]),
    // 31 spends the other one of what 17 pays.
    (&[(17, 0, ALICE)], &[(60, EVE)]),
];

/// A number that no transaction has gives an id that none has.
pub fn tx_id(ids: &[TxId], number: usize) -> TxId {
    ids.get(number).copied().unwrap_or(TxId::from_bytes(NOBODY))
}

fn input(alloc: Global, ids: &[TxId], (source, index, word): Spend) -> Result<Input, Fail> {
    let from = Outpoint {
        tx: tx_id(ids, source),
        index,
    };
    let preimage = Bytes::of(Vec::from_slice(alloc, &[word])?);
    Ok(Input { from, preimage })
}

fn inputs(alloc: Global, ids: &[TxId], spends: &[Spend]) -> Result<Inputs, Fail> {
    let mut inputs = Vec::new(alloc);
    for spend in spends {
        inputs.push(input(alloc, ids, *spend)?)?;
    }
    Ok(Inputs::of(inputs))
}

/// The outputs that pay these.
pub fn outputs(alloc: Global, paid: &[Paid]) -> Result<Outputs, Fail> {
    let mut outputs = Vec::new(alloc);
    for (amount, word) in paid {
        outputs.push(Output {
            amount: *amount,
            lock: Lock::of(&[*word]),
        })?;
    }
    Ok(Outputs::of(outputs))
}

/// What pays these from nothing.
pub fn grant(alloc: Global, paid: &[Paid]) -> Result<Tx, Fail> {
    let inputs = Inputs::of(Vec::new(alloc));
    let outputs = outputs(alloc, paid)?;
    Ok(Tx::new(alloc, inputs, outputs)?)
}

/// What spends one output, by a preimage, and pays these.
pub fn spend(alloc: Global, from: Outpoint, word: u8, paid: &[Paid]) -> Result<Tx, Fail> {
    let preimage = Bytes::of(Vec::from_slice(alloc, &[word])?);
    let mut inputs = Vec::new(alloc);
    inputs.push(Input { from, preimage })?;
    let outputs = outputs(alloc, paid)?;
    Ok(Tx::new(alloc, Inputs::of(inputs), outputs)?)
}

/// The transaction, by the ids of those before it.
fn made(alloc: Global, ids: &[TxId], (spends, paid): Payment) -> Result<Tx, Fail> {
    let inputs = inputs(alloc, ids, spends)?;
    let outputs = outputs(alloc, paid)?;
    Ok(Tx::new(alloc, inputs, outputs)?)
}

fn id_of(alloc: Global, ids: &[TxId], payment: Payment) -> Result<TxId, Fail> {
    Ok(id(alloc, &made(alloc, ids, payment)?)?)
}

/// The ids of all transactions.
pub fn tx_ids(alloc: Global) -> Result<Vec<TxId>, Fail> {
    let mut ids = Vec::new(alloc);
    for payment in PAYMENTS {
        ids.push(id_of(alloc, &ids, *payment)?)?;
    }
    Ok(ids)
}

/// The transactions of these numbers.
pub fn chosen(alloc: Global, ids: &[TxId], numbers: &[usize]) -> Result<Txs, Fail> {
    let mut txs = Vec::new(alloc);
    for number in numbers {
        let payment = PAYMENTS.get(*number).ok_or("no payment")?;
        txs.push(made(alloc, ids, *payment)?)?;
    }
    Ok(Txs::of(txs))
}
