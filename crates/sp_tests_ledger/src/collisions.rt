//! Outpoints that a stranger chose so that a table by the library's hasher finds them all in one
//! crowd: carriers that spend them cost no more than those that spend others.

use crate::purse::carry as carry_next;
use crate::rows::holds;
use sp_carry::Carriers;
use sp_dag::Dag;
use sp_fixtures::graph;
use sp_ids::{Lock, Outpoint, TxId};
use sp_model::Profile;
use sp_tx::{Bytes, Input, Inputs, Output, Outputs, Tx, Txs};
use std::alloc::Global;
use std::collections::HashMap;
use std::hash::{BuildHasher, BuildHasherDefault, FoldHasher};
use std::process::Abort;
use std::rt::Clock;
use std::test::Fail;
use std::time::{Duration, Instant};

/// How many outpoints are spent: by five blocks of 256 transactions with 16 inputs each.
const COUNT: usize = 20_480;

/// A table of the library that holds them has 4,096 groups of places. It begins at the group that
/// the hash says, and goes on to the next one where a group is full.
const GROUPS: u64 = 4_096;

/// The groups at which it begins for a crowd. They are full soon, and then each look-up goes past
/// the hundreds of groups behind them that are full, too. One outpoint of 32 belongs to the crowd,
/// so a crowd is found at once.
const CROWD: u64 = 128;

/// An outpoint for each number.
fn outpoint(number: u32) -> Outpoint {
    let [a, b, c, d] = number.to_le_bytes();
    let mut bytes = [0; 32];
    bytes[0] = a;
    bytes[1] = b;
    bytes[2] = c;
    bytes[3] = d;
    Outpoint {
        tx: TxId::from_bytes(bytes),
        index: 0,
    }
}

/// The group at which a table begins.
fn group(outpoint: &Outpoint) -> u64 {
    let hash = BuildHasherDefault::<FoldHasher>::new().hash_one(outpoint);
    (hash ^ hash >> 32) % GROUPS
}

/// The first outpoints that begin at one of so many groups.
fn outpoints(alloc: Global, groups: u64) -> Result<Vec<Outpoint>, Fail> {
    let mut outpoints = Vec::new(alloc);
    for number in 0..4_000_000u32 {
        if outpoints.len() == COUNT {
            break;
        }
        let new = outpoint(number);
        if group(&new) < groups {
            outpoints.push(new)?;
        }
    }
    Ok(outpoints)
}

/// What spends each of these.
fn inputs(alloc: Global, outpoints: &[Outpoint]) -> Result<Inputs, Fail> {
    let mut inputs = Vec::new(alloc);
    for from in outpoints {
        inputs.push(Input {
            from: *from,
            preimage: Bytes::of(Vec::from_slice(alloc, &[1])?),
        })?;
    }
    Ok(Inputs::of(inputs))
}

/// The transaction that spends these.
fn spender(alloc: Global, outpoints: &[Outpoint]) -> Result<Tx, Fail> {
    let output = Output {
        amount: 1,
        lock: Lock::of(&[1]),
    };
    let inputs = inputs(alloc, outpoints)?;
    let outputs = Outputs::of(Vec::from_slice(alloc, &[output])?);
    Ok(Tx::new(alloc, inputs, outputs)?)
}

/// The transactions of a block, 16 outpoints to each.
fn block(alloc: Global, outpoints: &[Outpoint]) -> Result<Txs, Fail> {
    let mut txs = Vec::new(alloc);
    for sixteen in outpoints.chunks(16) {
        txs.push(spender(alloc, sixteen)?)?;
    }
    Ok(Txs::of(txs))
}

/// Blocks of 256 transactions.
fn blocks(alloc: Global, outpoints: &[Outpoint]) -> Result<Vec<Txs>, Fail> {
    let mut blocks = Vec::new(alloc);
    for part in outpoints.chunks(4_096) {
        blocks.push(block(alloc, part)?)?;
    }
    Ok(blocks)
}

/// Makes a chain of five blocks of genesis alone.
fn extend(alloc: Global, dag: &mut Dag) -> Result<(), Fail> {
    for new in 1..5u8 {
        graph::add(alloc, dag, new, &[new.wrapping_sub(1)])?;
    }
    Ok(())
}

/// Adds the carriers of each block.
fn carry(carriers: &mut Carriers, dag: &Dag, blocks: &[Txs]) -> Result<(), Fail> {
    for txs in blocks {
        carry_next(dag, carriers, txs)?;
    }
    Ok(())
}

/// Whether each outpoint has just its one spender.
fn are_spent(carriers: &Carriers, outpoints: &[Outpoint]) -> bool {
    let mut number = 0u32;
    for outpoint in outpoints {
        if carriers.spenders_of(outpoint) != [number / 16].as_slice() {
            return false;
        }
        number = number.wrapping_add(1);
    }
    carriers.tx_count() == 1_280
}

/// The time that it takes to add the carriers, and to find the spender of each outpoint.
fn time_of(
    rt: &impl Clock,
    dag: &Dag,
    blocks: &[Txs],
    outpoints: &[Outpoint],
    carriers: &mut Carriers,
) -> Result<Duration, Fail> {
    let start = Instant::now(rt)?;
    carry(carriers, dag, blocks)?;
    if !are_spent(carriers, outpoints) {
        return Err("another spender".into());
    }
    Ok(start.elapsed(rt)?)
}

fn time(
    rt: &impl Clock,
    alloc: Global,
    dag: &Dag,
    outpoints: &[Outpoint],
) -> Result<Duration, Fail> {
    let blocks = blocks(alloc, outpoints)?;
    let mut carriers = Carriers::new(alloc);
    time_of(rt, dag, &blocks, outpoints, &mut carriers)
}

/// The least times that carriers take for both, of eight each, by turns, since the machine may be at
/// other work.
fn least_times(
    rt: &impl Clock,
    alloc: Global,
    dag: &Dag,
    others: &[Outpoint],
    crowd: &[Outpoint],
) -> Result<(Duration, Duration), Fail> {
    let mut other_time = time(rt, alloc, dag, others)?;
    let mut crowd_time = time(rt, alloc, dag, crowd)?;
    for _ in 0..7u32 {
        other_time = other_time.min(time(rt, alloc, dag, others)?);
        crowd_time = crowd_time.min(time(rt, alloc, dag, crowd)?);
    }
    Ok((other_time, crowd_time))
}

/// Puts each outpoint into the table and finds it there.
fn find_all(table: &mut HashMap<Outpoint, u8>, outpoints: &[Outpoint]) -> Result<bool, Fail> {
    for outpoint in outpoints {
        table.insert(*outpoint, 1)?;
    }
    for outpoint in outpoints {
        if table.get(outpoint) != Some(&1) {
            return Ok(false);
        }
    }
    Ok(true)
}

/// The time that a table by hash takes.
fn table_time_of(
    rt: &impl Clock,
    outpoints: &[Outpoint],
    table: &mut HashMap<Outpoint, u8>,
) -> Result<Duration, Fail> {
    let start = Instant::now(rt)?;
    if !find_all(table, outpoints)? {
        return Err("not found".into());
    }
    Ok(start.elapsed(rt)?)
}

fn table_time(rt: &impl Clock, alloc: Global, outpoints: &[Outpoint]) -> Result<Duration, Fail> {
    let mut table = HashMap::new(alloc);
    table_time_of(rt, outpoints, &mut table)
}

/// The least times that a table by hash takes for both, of three each.
fn least_table_times(
    rt: &impl Clock,
    alloc: Global,
    others: &[Outpoint],
    crowd: &[Outpoint],
) -> Result<(Duration, Duration), Fail> {
    let mut other_time = table_time(rt, alloc, others)?;
    let mut crowd_time = table_time(rt, alloc, crowd)?;
    for _ in 0..2u32 {
        other_time = other_time.min(table_time(rt, alloc, others)?);
        crowd_time = crowd_time.min(table_time(rt, alloc, crowd)?);
    }
    Ok((other_time, crowd_time))
}

/// Carriers that kept outpoints in a table by hash would take ten times as long for the crowd. That
/// it is a crowd shows in such a table.
fn compare(
    rt: &(impl Clock + Abort),
    alloc: Global,
    dag: &Dag,
    others: &[Outpoint],
    crowd: &[Outpoint],
) -> Result<(), Fail> {
    let (other_time, crowd_time) = least_times(rt, alloc, dag, others, crowd)?;
    holds(
        rt,
        0,
        crowd_time.as_micros() <= other_time.as_micros() * 4 + 50_000,
    );
    let (other_time, crowd_time) = least_table_times(rt, alloc, others, crowd)?;
    holds(rt, 1, crowd_time.as_micros() >= other_time.as_micros() * 4);
    Ok(())
}

fn judge(rt: &(impl Clock + Abort), alloc: Global, dag: &mut Dag) -> Result<(), Fail> {
    extend(alloc, dag)?;
    let others = outpoints(alloc, GROUPS)?;
    let crowd = outpoints(alloc, CROWD)?;
    compare(rt, alloc, dag, &others, &crowd)
}

#[test]
fn crowded_outpoints(rt: HostRuntime) -> Result<(), Fail> {
    let mut dag = Dag::new(rt.alloc(), graph::id(0), 0, Profile::One)?;
    judge(&rt, rt.alloc(), &mut dag)
}
