//! A long chain of spends whose first one has a rival: all of it turns with the vote on two blocks.

use crate::acceptance::{counts, listed};
use crate::balances::balance;
use crate::blocks::Blocks;
use crate::engine::{engine_of, offer};
use crate::payments::{ALICE, BOB, CAROL, DAVE, Paid, grant, spend};
use crate::rows::right;
use sp_engine::Engine;
use sp_ids::{Lock, Outpoint, TxId};
use sp_tx::{Tx, Txs, id};
use std::alloc::Global;
use std::test::Fail;

/// What the first spend pays. A thread of spends goes on from each of these outputs.
#[rattlefmt::skip]
const FIRST: &[Paid] = &[
    (10, BOB), (10, BOB), (10, BOB), (10, BOB), (10, BOB),
    (10, BOB), (10, BOB), (10, BOB), (10, BOB), (10, BOB),
];

/// How many blocks carry the threads: each thread goes on in one block of three, which makes a hundred
/// spends of each, a thousand in all.
const LONG: usize = 300;

/// The output in which a thread ends, and whose lock it has.
#[derive(Clone, Copy)]
struct End {
    from: Outpoint,
    owner: u8,
}

/// The transactions of a block that carries one.
fn alone(alloc: Global, tx: Tx) -> Result<Txs, Fail> {
    let mut txs = Vec::new(alloc);
    txs.push(tx)?;
    Ok(Txs::of(txs))
}

/// Adds a block that carries one transaction, whose id it answers.
fn put(alloc: Global, blocks: &mut Blocks, parents: &[usize], tx: Tx) -> Result<TxId, Fail> {
    let id = id(alloc, &tx)?;
    blocks.put(parents, alone(alloc, tx)?)?;
    Ok(id)
}

/// Genesis, and blocks 1 and 2 on it, which spend what it grants; the id of the spend in block 1.
fn begin(alloc: Global, blocks: &mut Blocks) -> Result<TxId, Fail> {
    let granted = put(alloc, blocks, &[], grant(alloc, &[(100, ALICE)])?)?;
    let from = Outpoint {
        tx: granted,
        index: 0,
    };
    let first = put(alloc, blocks, &[0], spend(alloc, from, ALICE, FIRST)?)?;
    let _rival = put(
        alloc,
        blocks,
        &[0],
        spend(alloc, from, ALICE, &[(100, CAROL)])?,
    )?;
    Ok(first)
}

/// Where the threads begin.
fn ends_of(alloc: Global, tx: TxId) -> Result<Vec<End>, Fail> {
    let mut ends = Vec::new(alloc);
    for index in 0..10u8 {
        ends.push(End {
            from: Outpoint { tx, index },
            owner: BOB,
        })?;
    }
    Ok(ends)
}

/// What spends the end of a thread, and pays Dave where that is Bob's, else Bob.
fn next(alloc: Global, end: &mut End) -> Result<Tx, Fail> {
    let owner = if end.owner == BOB { DAVE } else { BOB };
    let tx = spend(alloc, end.from, end.owner, &[(10, owner)])?;
    let from = Outpoint {
        tx: id(alloc, &tx)?,
        index: 0,
    };
    *end = End { from, owner };
    Ok(tx)
}

/// The next spends of each third thread.
fn thirds(alloc: Global, ends: &mut [End], number: usize) -> Result<Txs, Fail> {
    let mut txs = Vec::new(alloc);
    for (thread, end) in ends.iter_mut().enumerate() {
        if thread % 3 == number % 3 {
            txs.push(next(alloc, end)?)?;
        }
    }
    Ok(Txs::of(txs))
}

/// The blocks of the threads. The first stands on blocks 1 and 2, so that none of them tells which of
/// the two comes first.
fn go_on(alloc: Global, blocks: &mut Blocks, ends: &mut [End]) -> Result<(), Fail> {
    for number in 0..LONG {
        let txs = thirds(alloc, ends, number)?;
        let last = blocks.count().saturating_sub(1);
        if number == 0 {
            blocks.put(&[1, 2], txs)?;
        } else {
            blocks.put(&[last], txs)?;
        }
    }
    Ok(())
}

/// The parents of the last blocks.
const LAST: &[usize] = &[1, 2, 2, 1, 1];

fn fill(alloc: Global, blocks: &mut Blocks) -> Result<(), Fail> {
    let first = begin(alloc, blocks)?;
    let mut ends = ends_of(alloc, first)?;
    go_on(alloc, blocks, &mut ends)?;
    for parent in LAST {
        blocks.put(&[*parent], Txs::of(Vec::new(alloc)))?;
    }
    Ok(())
}

/// How many blocks have come then, how many transactions are accepted, and what is left to Alice, Bob,
/// Carol and Dave.
type Step = (usize, usize, [u128; 4]);

#[rattlefmt::skip]
const STEPS: &[Step] = &[
    (1, 1, [100, 0, 0, 0]),
    (2, 2, [0, 100, 0, 0]),
    // A tie.
    (303, 1, [100, 0, 0, 0]),
    (304, 1_002, [0, 100, 0, 0]),
    (305, 1, [100, 0, 0, 0]),
    (306, 2, [0, 0, 100, 0]),
    (307, 1, [100, 0, 0, 0]),
    (308, 1_002, [0, 100, 0, 0]),
];

fn offer_each(engine: &mut Engine, blocks: &Blocks, from: usize, to: usize) -> Result<(), Fail> {
    for number in from..to {
        let _told = offer(engine, blocks.text(number))?;
    }
    Ok(())
}

fn accepted(alloc: Global, engine: &Engine) -> Result<usize, Fail> {
    let (_, count) = counts(engine)?;
    let listed = listed(alloc, engine, count)?;
    Ok(listed.iter().filter(|one| one.1).count())
}

fn is_left(engine: &Engine, left: &[u128; 4]) -> Result<bool, Fail> {
    for (owner, amount) in [ALICE, BOB, CAROL, DAVE].iter().zip(left) {
        if balance(engine, &Lock::of(&[*owner]))? != *amount {
            return Ok(false);
        }
    }
    Ok(true)
}

/// What is wrong after a step.
fn wrong(alloc: Global, engine: &Engine, step: &Step) -> Result<&'static str, Fail> {
    if accepted(alloc, engine)? != step.1 {
        Ok("accepted")
    } else if !is_left(engine, &step.2)? {
        Ok("left")
    } else {
        Ok("")
    }
}

/// What is wrong after the first step after which something is.
fn come(
    alloc: Global,
    engine: &mut Engine,
    blocks: &Blocks,
) -> Result<(usize, &'static str), Fail> {
    let mut came = 1usize;
    for step in STEPS {
        offer_each(engine, blocks, came, step.0)?;
        came = step.0;
        let wrong = wrong(alloc, engine, step)?;
        if !wrong.is_empty() {
            return Ok((came, wrong));
        }
    }
    Ok((came, ""))
}

#[test]
fn a_thousand_spends_turn(rt: HostRuntime) -> Result<(), Fail> {
    let mut blocks = Blocks::new(rt.alloc())?;
    fill(rt.alloc(), &mut blocks)?;
    let mut engine = engine_of(rt.alloc(), blocks.text(0), 0)?;
    let found = come(rt.alloc(), &mut engine, &blocks);
    drop(engine);
    let (came, wrong) = found?;
    right(&rt, came, wrong);
    Ok(())
}
