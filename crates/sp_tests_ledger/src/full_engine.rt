//! An engine that keeps as many blocks as it has room for.

use crate::arrival_rows::TWO;
use crate::engine::{Counts, Told, run};
use crate::rows::holds;
use sp_block::BlockFault;
use sp_engine::Refusal;
use sp_fixtures::Numbered;
use std::alloc::Global;
use std::test::Fail;

/// 1 and 2 on genesis, and 511 blocks whose parent never comes.
fn orphans(alloc: Global) -> Result<Numbered, Fail> {
    let mut blocks = Numbered::of(alloc, TWO)?;
    for _ in 0..511u16 {
        blocks.add(&[999])?;
    }
    Ok(blocks)
}

/// 510 blocks that wait and one that doesn't fill the room beside genesis. Then come a block that
/// would be present, one that would wait, two that are kept, and no bytes at all.
fn fillers(blocks: &Numbered) -> Result<Vec<Vec<u8>>, Fail> {
    let mut numbers = Vec::new(blocks.alloc);
    for number in 3..513usize {
        numbers.push(number)?;
    }
    numbers.extend_from_slice(&[1, 2, 513, 512, 1, 999])?;
    blocks.chosen(&numbers)
}

#[rattlefmt::skip]
const LAST: [Told; 6] = [
    Told::Kept(1), Told::Full, Told::Full, Told::Known, Told::Known,
    Told::Refused(Refusal::Spelling(BlockFault::Short)),
];

fn are_filled(told: &[Told]) -> bool {
    let (waiting, last) = told.split_at(told.len().min(510));
    waiting.iter().all(|one| *one == Told::Held) && last == LAST.as_slice()
}

/// How many blocks are present, wait and are kept once so many came.
fn counts_after(blocks: &Numbered, came: &[Vec<u8>], count: usize) -> Result<Counts, Fail> {
    let (first, _) = came.split_at(came.len().min(count));
    Ok(run(blocks.alloc, blocks.text(0), 0, first, &[])?.counts)
}

#[test]
fn a_full_engine(rt: HostRuntime) -> Result<(), Fail> {
    let blocks = orphans(rt.alloc())?;
    let came = fillers(&blocks)?;
    holds(&rt, 0, counts_after(&blocks, &came, 510)? == (1, 510, 511));
    let ran = run(rt.alloc(), blocks.text(0), 0, &came, &[])?;
    holds(&rt, 1, are_filled(&ran.told) && ran.counts == (2, 510, 512));
    Ok(())
}
