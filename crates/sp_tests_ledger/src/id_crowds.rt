//! Transactions whose ids a stranger found by trying digests, so that a table by the library's hasher finds
//! them all in one crowd, or so that they begin alike: carriers find them as fast as others.

use crate::purse::carry as carry_next;
use crate::rows::holds;
use sp_carry::Carriers;
use sp_dag::Dag;
use sp_fixtures::graph;
use sp_ids::{Lock, TxId};
use sp_model::Profile;
use sp_tx::{Inputs, Output, Outputs, Tx, Txs};
use std::alloc::Global;
use std::collections::HashMap;
use std::hash::{BuildHasher, BuildHasherDefault, FoldHasher};
use std::process::Abort;
use std::rt::Clock;
use std::test::Fail;
use std::time::{Duration, Instant};

/// How many transactions there are: 18 blocks of 256.
const COUNT: usize = 4_608;

/// A table of the library that holds them has 512 groups of places. It begins at the group that the hash
/// says, and goes on to the next one where a group is full.
const GROUPS: u64 = 512;

/// The groups at which it begins for a crowd. They are full soon, and then each look-up goes past the
/// hundreds of groups behind them that are full, too.
const CROWD: u64 = 8;

/// How ids are chosen: as they come, for the crowd, or by their first byte.
#[derive(Clone, Copy)]
enum Kind {
    Other,
    Crowd,
    Alike,
}

/// The bytes of a transaction for each number: it has no input, and pays 1 under the lock whose first bytes
/// are the number.
fn text(number: u32) -> [u8; 42] {
    let [a, b, c, d] = number.to_le_bytes();
    let mut text = [0; 42];
    text[1] = 1;
    text[2] = 1;
    text[10] = a;
    text[11] = b;
    text[12] = c;
    text[13] = d;
    text
}

/// The transaction.
fn tx(alloc: Global, number: u32) -> Result<Tx, Fail> {
    let [a, b, c, d] = number.to_le_bytes();
    let mut lock = [0; 32];
    lock[0] = a;
    lock[1] = b;
    lock[2] = c;
    lock[3] = d;
    let output = Output {
        amount: 1,
        lock: Lock::from_bytes(lock),
    };
    let outputs = Outputs::of(Vec::from_slice(alloc, &[output])?);
    Ok(Tx::new(alloc, Inputs::of(Vec::new(alloc)), outputs)?)
}

/// The group at which a table begins.
fn group(id: &TxId) -> u64 {
    let hash = BuildHasherDefault::<FoldHasher>::new().hash_one(id);
    (hash ^ hash >> 32) % GROUPS
}

fn is_of(kind: Kind, id: &TxId) -> bool {
    match kind {
        Kind::Other => true,
        Kind::Crowd => group(id) < CROWD,
        Kind::Alike => id.as_bytes()[0] == 0,
    }
}

/// Transactions in blocks, and their ids.
#[derive(Drop)]
struct Made {
    blocks: Vec<Txs>,
    ids: Vec<TxId>,
}

/// The numbers of the first transactions of the kind.
fn numbers(alloc: Global, kind: Kind) -> Result<Vec<u32>, Fail> {
    let mut numbers = Vec::new(alloc);
    for number in 0..4_000_000u32 {
        if numbers.len() == COUNT {
            break;
        }
        if is_of(kind, &TxId::of(&text(number))) {
            numbers.push(number)?;
        }
    }
    Ok(numbers)
}

/// The transactions of these numbers.
fn block(alloc: Global, numbers: &[u32]) -> Result<Txs, Fail> {
    let mut txs = Vec::new(alloc);
    for number in numbers {
        txs.push(tx(alloc, *number)?)?;
    }
    Ok(Txs::of(txs))
}

/// Blocks of 256 transactions of the kind.
fn make(alloc: Global, kind: Kind) -> Result<Made, Fail> {
    let numbers = numbers(alloc, kind)?;
    let mut ids = Vec::new(alloc);
    for number in &numbers {
        ids.push(TxId::of(&text(*number)))?;
    }
    let mut blocks = Vec::new(alloc);
    for part in numbers.chunks(256) {
        blocks.push(block(alloc, part)?)?;
    }
    Ok(Made { blocks, ids })
}

/// Makes a chain of genesis alone one of so many blocks.
fn extend(alloc: Global, dag: &mut Dag) -> Result<(), Fail> {
    for new in 1..18u8 {
        graph::add(alloc, dag, new, &[new.wrapping_sub(1)])?;
    }
    Ok(())
}

/// Whether each id has its number.
fn are_found(carriers: &Carriers, ids: &[TxId]) -> bool {
    let mut number = 0u32;
    for id in ids {
        if carriers.tx_of(id) != Some(number) {
            return false;
        }
        number = number.wrapping_add(1);
    }
    carriers.tx_count() == 4_608
}

/// The time that it takes to add the carriers, and to find each transaction 16 times.
fn time_of(
    rt: &impl Clock,
    dag: &Dag,
    made: &Made,
    carriers: &mut Carriers,
) -> Result<Duration, Fail> {
    let start = Instant::now(rt)?;
    for txs in &made.blocks {
        carry_next(dag, carriers, txs)?;
    }
    for _ in 0..16u32 {
        if !are_found(carriers, &made.ids) {
            return Err("another number".into());
        }
    }
    Ok(start.elapsed(rt)?)
}

fn time(rt: &impl Clock, alloc: Global, dag: &Dag, made: &Made) -> Result<Duration, Fail> {
    let mut carriers = Carriers::new(alloc);
    time_of(rt, dag, made, &mut carriers)
}

/// The least times that carriers take for both, of six each, by turns, since the machine may be at other
/// work.
fn least_times(
    rt: &impl Clock,
    alloc: Global,
    dag: &Dag,
    others: &Made,
    crowd: &Made,
) -> Result<(Duration, Duration), Fail> {
    let mut other_time = time(rt, alloc, dag, others)?;
    let mut crowd_time = time(rt, alloc, dag, crowd)?;
    for _ in 0..5u32 {
        other_time = other_time.min(time(rt, alloc, dag, others)?);
        crowd_time = crowd_time.min(time(rt, alloc, dag, crowd)?);
    }
    Ok((other_time, crowd_time))
}

/// Puts each id into the table, and finds it there 16 times.
fn find_all(table: &mut HashMap<TxId, u8>, ids: &[TxId]) -> Result<bool, Fail> {
    for id in ids {
        table.insert(*id, 1)?;
    }
    for _ in 0..16u32 {
        for id in ids {
            if table.get(id) != Some(&1) {
                return Ok(false);
            }
        }
    }
    Ok(true)
}

/// The time that a table by hash takes.
fn table_time(rt: &impl Clock, alloc: Global, ids: &[TxId]) -> Result<Duration, Fail> {
    let mut table = HashMap::new(alloc);
    let start = Instant::now(rt)?;
    if !find_all(&mut table, ids)? {
        return Err("not found".into());
    }
    Ok(start.elapsed(rt)?)
}

/// The least times that a table by hash takes for both, of three each.
fn least_table_times(
    rt: &impl Clock,
    alloc: Global,
    others: &[TxId],
    crowd: &[TxId],
) -> Result<(Duration, Duration), Fail> {
    let mut other_time = table_time(rt, alloc, others)?;
    let mut crowd_time = table_time(rt, alloc, crowd)?;
    for _ in 0..2u32 {
        other_time = other_time.min(table_time(rt, alloc, others)?);
        crowd_time = crowd_time.min(table_time(rt, alloc, crowd)?);
    }
    Ok((other_time, crowd_time))
}

/// Carriers take at most 1.3 times as long for these as for others, and 20 ms more.
fn compare(
    rt: &(impl Clock + Abort),
    alloc: Global,
    dag: &Dag,
    others: &Made,
    kind: Kind,
) -> Result<(), Fail> {
    let made = make(alloc, kind)?;
    let (other_time, time) = least_times(rt, alloc, dag, others, &made)?;
    holds(
        rt,
        kind as usize,
        time.as_micros() * 10 <= other_time.as_micros() * 13 + 200_000,
    );
    Ok(())
}

/// That it is a crowd shows in a table by hash.
fn shows(rt: &(impl Clock + Abort), alloc: Global, others: &Made) -> Result<(), Fail> {
    let crowd = make(alloc, Kind::Crowd)?;
    let (other_time, crowd_time) = least_table_times(rt, alloc, &others.ids, &crowd.ids)?;
    holds(rt, 0, crowd_time.as_micros() >= other_time.as_micros() * 4);
    Ok(())
}

fn judge(rt: &(impl Clock + Abort), alloc: Global, dag: &mut Dag) -> Result<(), Fail> {
    extend(alloc, dag)?;
    let others = make(alloc, Kind::Other)?;
    shows(rt, alloc, &others)?;
    compare(rt, alloc, dag, &others, Kind::Crowd)?;
    compare(rt, alloc, dag, &others, Kind::Alike)
}

#[test]
fn crowded_ids(rt: HostRuntime) -> Result<(), Fail> {
    let mut dag = Dag::new(rt.alloc(), graph::id(0), 0, Profile::One)?;
    judge(&rt, rt.alloc(), &mut dag)
}
