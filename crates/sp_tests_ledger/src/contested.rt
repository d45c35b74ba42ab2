//! Payments of strangers who mean harm, in the shapes on which acceptance took longest: after each of
//! 60 blocks, what changed decides as one decision on all carriers does.

use crate::ledger::Ledger;
use crate::payments::{ALICE, Paid, grant, outputs};
use crate::rows::holds;
use sp_fixtures::graph;
use sp_ids::{BlockId, Outpoint, TxId};
use sp_tx::{Bytes, Input, Inputs, Tx, Txs, id};
use std::alloc::Global;
use std::test::Fail;

/// How many blocks stand on genesis.
const COUNT: u8 = 60;

/// What genesis grants: coins, of which each block spends all, or what comes of them.
#[rattlefmt::skip]
const GRANTED: &[Paid] = &[
    (2, ALICE), (2, ALICE), (2, ALICE), (2, ALICE), (2, ALICE), (2, ALICE),
    (2, ALICE), (2, ALICE), (2, ALICE), (2, ALICE), (2, ALICE), (2, ALICE),
];

/// On which blocks each one stands.
#[derive(Clone, Copy)]
enum Graph {
    /// Two chains on genesis, which take the lead from one another in turns.
    Turns,
    /// These, where each eighth block stands on both.
    Braid,
    /// Each on the one as many before it as half of them.
    Broad,
    /// Half of them in a chain, and the others on genesis.
    Star,
    /// All in a chain.
    Chain,
}

/// Whom a block's payments pay. Blocks with one payee carry the same payments, others rivals of them.
#[derive(Clone, Copy)]
enum Payee {
    /// One in each chain, or in each half.
    Side,
    /// Three in each chain, in turns.
    Thirds,
    /// One in each block.
    Own,
    /// The owner: a block spends what the one below it was paid, and the first ones are rivals.
    Owner,
}

/// A graph, whom its blocks pay, and how many coins each payment spends.
type Row = (Graph, Payee, usize);

#[rattlefmt::skip]
const ROWS: &[Row] = &[
    (Graph::Turns, Payee::Side, 1), (Graph::Turns, Payee::Side, 4), (Graph::Turns, Payee::Own, 4),
    (Graph::Turns, Payee::Thirds, 1), (Graph::Turns, Payee::Thirds, 4),
    (Graph::Turns, Payee::Owner, 1), (Graph::Turns, Payee::Owner, 4),
    (Graph::Braid, Payee::Thirds, 4), (Graph::Braid, Payee::Owner, 4),
    (Graph::Broad, Payee::Own, 1), (Graph::Star, Payee::Side, 4), (Graph::Chain, Payee::Side, 4),
];

/// The chain or the half of a block.
fn side(graph: Graph, number: u8) -> u8 {
    match graph {
        Graph::Turns | Graph::Braid => number / 2 % 2,
        Graph::Broad => 0,
        Graph::Star | Graph::Chain => u8::from(number > COUNT / 2),
    }
}

/// The number of the block on which one stands; a braid's has another one too, the one before it.
fn parent(graph: Graph, number: u8) -> u8 {
    match graph {
        Graph::Turns | Graph::Braid => {
            if number % 2 == 0 {
                number.saturating_sub(3)
            } else {
                number.saturating_sub(1)
            }
        }
        Graph::Broad => number.saturating_sub(COUNT / 2),
        Graph::Star => {
            if number > COUNT / 2 {
                0
            } else {
                number.saturating_sub(1)
            }
        }
        Graph::Chain => number.saturating_sub(1),
    }
}

fn parents(alloc: Global, graph: Graph, number: u8) -> Result<Vec<BlockId>, Fail> {
    let mut parents = Vec::new(alloc);
    parents.push(graph::id(parent(graph, number)))?;
    if matches!(graph, Graph::Braid) && number % 8 == 0 {
        parents.push(graph::id(number.saturating_sub(1)))?;
    }
    Ok(parents)
}

/// What each payment of a block pays.
fn paid(alloc: Global, (graph, payee, width): Row, number: u8) -> Result<Vec<Paid>, Fail> {
    let side = side(graph, number);
    let third = number.saturating_sub(1) / 2 % 3;
    let mut paid = Vec::new(alloc);
    match payee {
        Payee::Side => paid.push((1, side.saturating_add(10)))?,
        Payee::Thirds => paid.push((1, side.saturating_add(10).saturating_add(third * 2)))?,
        Payee::Own => paid.push((1, number.saturating_add(10)))?,
        Payee::Owner => {
            // The second block is the first one of its chain.
            paid.push((if number == 2 { 2 } else { 1 }, ALICE))?;
            for _ in 1..width {
                paid.push((1, ALICE))?;
            }
        }
    }
    Ok(paid)
}

/// The transaction that spends these coins.
fn spending(alloc: Global, coins: &[Outpoint], paid: &[Paid]) -> Result<Tx, Fail> {
    let mut inputs = Vec::new(alloc);
    for from in coins {
        let preimage = Bytes::of(Vec::from_slice(alloc, &[ALICE])?);
        inputs.push(Input {
            from: *from,
            preimage,
        })?;
    }
    let outputs = outputs(alloc, paid)?;
    Ok(Tx::new(alloc, Inputs::of(inputs), outputs)?)
}

/// The coins of one index that transactions pay.
fn push_coins(coins: &mut Vec<Outpoint>, ids: &[TxId], index: u8) -> Result<(), Fail> {
    for tx in ids {
        coins.push(Outpoint { tx: *tx, index })?;
    }
    Ok(())
}

/// The coins that transactions pay, of each transaction the first one, then the second one and so on.
fn coins_of(alloc: Global, ids: &[TxId], width: usize) -> Result<Vec<Outpoint>, Fail> {
    let mut coins = Vec::new(alloc);
    for index in 0..16u8 {
        if (index as usize) < width {
            push_coins(&mut coins, ids, index)?;
        }
    }
    Ok(coins)
}

/// The transactions of a block, which spends these coins, and their ids.
fn txs_of(
    alloc: Global,
    row: Row,
    number: u8,
    coins: &[Outpoint],
) -> Result<(Vec<Tx>, Vec<TxId>), Fail> {
    let paid = paid(alloc, row, number)?;
    let (mut txs, mut ids) = (Vec::new(alloc), Vec::new(alloc));
    for spent in coins.chunks(row.2.max(1)) {
        let tx = spending(alloc, spent, &paid)?;
        ids.push(id(alloc, &tx)?)?;
        txs.push(tx)?;
    }
    Ok((txs, ids))
}

/// Adds a block, and answers the coins that the one above it spends.
fn add(
    alloc: Global,
    ledger: &mut Ledger,
    row: Row,
    number: u8,
    coins: &[Outpoint],
) -> Result<Vec<Outpoint>, Fail> {
    let (txs, ids) = txs_of(alloc, row, number, coins)?;
    ledger.add(
        graph::id(number),
        &parents(alloc, row.0, number)?,
        &Txs::of(txs),
    )?;
    if matches!(row.1, Payee::Owner) {
        return coins_of(alloc, &ids, row.2);
    }
    Ok(Vec::from_slice(alloc, coins)?)
}

/// Whether what changed decides as all do.
fn decides_alike(ledger: &mut Ledger) -> Result<bool, Fail> {
    let _flips = ledger.update(&[])?;
    let anew = ledger.anew()?;
    let same = ledger.is_same(&anew.accepted);
    drop(anew);
    Ok(same)
}

/// Whether it does so after each block. `coins` has what the block above each one spends.
fn decide_alike(
    alloc: Global,
    ledger: &mut Ledger,
    row: Row,
    coins: &mut Vec<Vec<Outpoint>>,
) -> Result<bool, Fail> {
    for number in 1..=COUNT {
        let below = coins.get(parent(row.0, number) as usize).ok_or("no coins")?;
        let next = add(alloc, ledger, row, number, below)?;
        coins.push(next)?;
        if !decides_alike(ledger)? {
            return Ok(false);
        }
    }
    Ok(true)
}

/// Whether it does, from genesis on, which grants the coins.
fn begin(alloc: Global, ledger: &mut Ledger, row: Row) -> Result<bool, Fail> {
    let granting = grant(alloc, GRANTED)?;
    let mut coins = Vec::new(alloc);
    coins.push(coins_of_grant(alloc, id(alloc, &granting)?)?)?;
    let mut txs = Vec::new(alloc);
    txs.push(granting)?;
    ledger.carry(&Txs::of(txs))?;
    decide_alike(alloc, ledger, row, &mut coins)
}

fn coins_of_grant(alloc: Global, tx: TxId) -> Result<Vec<Outpoint>, Fail> {
    coins_of(alloc, &[tx], GRANTED.len())
}

fn is_decided(alloc: Global, row: Row) -> Result<bool, Fail> {
    let mut ledger = Ledger::of(alloc, graph::id(0))?;
    let decided = begin(alloc, &mut ledger, row);
    drop(ledger);
    decided
}

#[test]
fn contested_payments(rt: HostRuntime) -> Result<(), Fail> {
    for (place, row) in ROWS.iter().enumerate() {
        holds(&rt, place, is_decided(rt.alloc(), *row)?);
    }
    Ok(())
}
