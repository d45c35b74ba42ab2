//! Which sound carriers conflict with each carrier, and in which blocks those stand that conflict with each
//! transaction, worked out by hand from the rules.

use crate::payments::{chosen, tx_ids};
use crate::purse::carry;
use crate::rows::holds;
use sp_bits::Row;
use sp_carry::Carriers;
use sp_dag::Dag;
use sp_fixtures::graph;
use sp_model::Profile;
use std::alloc::Global;
use std::test::Fail;

/// Blocks from number 1 on, the numbers of the sound carriers that conflict with each carrier, and those of
/// the blocks with such carriers for each transaction; genesis is number 0, and so are its carrier and its
/// transaction.
type Rivals = (
    &'static [(&'static [u8], &'static [usize])],
    &'static [&'static [u32]],
    &'static [&'static [u16]],
);

#[rattlefmt::skip]
const RIVALS: &[Rivals] = &[
    (&[(&[0], &[1]), (&[0], &[2])], &[&[], &[2], &[1]], &[&[], &[2], &[1]]),
    // Two carriers of the same.
    (&[(&[0], &[1]), (&[0], &[1])], &[&[], &[], &[]], &[&[], &[]]),
    // The second isn't sound.
    (&[(&[0], &[1]), (&[0], &[4])], &[&[], &[], &[1]], &[&[], &[], &[1]]),
    (&[(&[0], &[1]), (&[0], &[2]), (&[1, 2], &[2])], &[&[], &[2, 3], &[1], &[1]], &[&[], &[2, 3], &[1]]),
    // 18 comes twice, and spends the two outputs that 31 and 20 do.
    (
        &[(&[0], &[17]), (&[1], &[31, 20]), (&[1], &[18]), (&[3], &[18])],
        &[&[], &[], &[4, 5], &[4, 5], &[2, 3], &[2, 3]],
        &[&[], &[], &[3, 4], &[3, 4], &[2]],
    ),
];

/// Adds a block with the transactions of these numbers.
fn add(
    alloc: Global,
    dag: &mut Dag,
    carriers: &mut Carriers,
    (parents, numbers): (&[u8], &[usize]),
) -> Result<(), Fail> {
    let [new, _] = dag.len().to_le_bytes();
    graph::add(alloc, dag, new, parents)?;
    carry(dag, carriers, &chosen(alloc, &tx_ids(alloc)?, numbers)?)
}

fn rivals(carriers: &Carriers, c: u32) -> Result<Vec<u32>, Fail> {
    if c >= carriers.carrier_count() {
        return Err("no such carrier".into());
    }
    Ok(carriers.conflicts_of(c)?)
}

/// Whether there are just so many carriers, with these rivals.
fn are_rivals(carriers: &Carriers, listed: &[&[u32]]) -> Result<bool, Fail> {
    let mut c = 0u32;
    for expected in listed {
        if rivals(carriers, c)?.as_slice() != *expected {
            return Ok(false);
        }
        c = c.wrapping_add(1);
    }
    Ok(carriers.carrier_count() == c)
}

/// Whether the row has just these blocks.
fn has_just(row: &Row, blocks: &[u16]) -> bool {
    row.count() as usize == blocks.len()
        && blocks.iter().all(|block| *block < 512 && row.test(*block))
}

fn rivals_stand_in(carriers: &Carriers, tx: u32, blocks: &[u16]) -> bool {
    tx < carriers.tx_count() && has_just(carriers.rival_blocks(tx), blocks)
}

/// Whether there are just so many transactions, with rivals in these blocks.
fn are_rival_blocks(carriers: &Carriers, listed: &[&[u16]]) -> bool {
    let mut tx = 0u32;
    for blocks in listed {
        if !rivals_stand_in(carriers, tx, blocks) {
            return false;
        }
        tx = tx.wrapping_add(1);
    }
    carriers.tx_count() == tx
}

fn add_each(
    alloc: Global,
    dag: &mut Dag,
    carriers: &mut Carriers,
    blocks: &[(&[u8], &[usize])],
) -> Result<(), Fail> {
    carry(dag, carriers, &chosen(alloc, &tx_ids(alloc)?, &[0])?)?;
    for block in blocks {
        add(alloc, dag, carriers, *block)?;
    }
    Ok(())
}

/// Whether they are, of a graph of genesis alone.
fn judge(
    alloc: Global,
    dag: &mut Dag,
    carriers: &mut Carriers,
    (blocks, listed, stand_in): Rivals,
) -> Result<bool, Fail> {
    add_each(alloc, dag, carriers, blocks)?;
    Ok(are_rivals(carriers, listed)? && are_rival_blocks(carriers, stand_in))
}

fn have_rivals(alloc: Global, row: Rivals) -> Result<bool, Fail> {
    let mut dag = Dag::new(alloc, graph::id(0), 0, Profile::One)?;
    let mut carriers = Carriers::new(alloc);
    let judged = judge(alloc, &mut dag, &mut carriers, row);
    drop(carriers);
    drop(dag);
    judged
}

#[test]
fn rivals_of_carriers(rt: HostRuntime) -> Result<(), Fail> {
    for (place, row) in RIVALS.iter().enumerate() {
        holds(&rt, place, have_rivals(rt.alloc(), *row)?);
    }
    Ok(())
}
