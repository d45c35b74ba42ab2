//! Bytes that an engine refuses, with the first reason, and the least nonce that meets its work.

use crate::engine::{Ran, Told, run};
use crate::rows::holds;
use sp_block::{BlockFault, Draft, Parents, draft_bytes, seek_nonce};
use sp_engine::Refusal;
use sp_fixtures::GENESIS;
use sp_ids::BlockId;
use sp_tx::{TxFault, Txs};
use std::alloc::Global;
use std::test::Fail;

/// What a block begins with: its version, and the salt and the nonce 0.
const HEAD: [&[u8]; 2] = [&[1], &[0; 16]];

/// Bytes by their fields, the bits of work, and why the bytes are refused.
struct Refused {
    bits: u8,
    fields: &'static [&'static [&'static [u8]]],
    why: Refusal,
}

#[rattlefmt::skip]
const REFUSED: &[Refused] = &[
    Refused { bits: 0, fields: &[&HEAD, &[&[1], &[0; 32], &[0, 0], &[7]]], why: Refusal::Spelling(BlockFault::Trailing) },
    Refused { bits: 64, fields: &[&HEAD, &[&[1], &[0; 32], &[0, 0]]], why: Refusal::Work },
    // Bytes that spell no block aren't asked for their work.
    Refused { bits: 64, fields: &[&HEAD, &[&[1], &[0; 32], &[0, 0], &[7]]], why: Refusal::Spelling(BlockFault::Trailing) },
    // The first fault.
    Refused { bits: 0, fields: &[], why: Refusal::Spelling(BlockFault::Short) },
    Refused { bits: 0, fields: &[&[&[2]]], why: Refusal::Spelling(BlockFault::Version) },
    Refused { bits: 0, fields: &[&HEAD, &[&[2], &[5; 32], &[3; 32], &[1, 1], &[7]]], why: Refusal::Spelling(BlockFault::ParentOrder) },
    Refused { bits: 0, fields: &[&HEAD, &[&[1], &[0; 32], &[1, 1], &[7]]], why: Refusal::Spelling(BlockFault::TxCount) },
    Refused { bits: 0, fields: &[&HEAD, &[&[1], &[0; 32], &[1, 0]]], why: Refusal::Spelling(BlockFault::Tx(TxFault::Short)) },
    // The bytes of the genesis block.
    Refused { bits: 0, fields: &[&HEAD, &[&[0], &[0, 0]]], why: Refusal::Spelling(BlockFault::ParentCount) },
    Refused { bits: 64, fields: &[&HEAD, &[&[0], &[0, 0]]], why: Refusal::Spelling(BlockFault::ParentCount) },
];

fn joined(alloc: Global, pieces: &[&[&[u8]]]) -> Result<Vec<u8>, Fail> {
    let mut bytes = Vec::new(alloc);
    for fields in pieces {
        bytes.extend_from_slice(&fields.concat(alloc)?)?;
    }
    Ok(bytes)
}

/// Genesis isn't judged for work.
fn run_refused(alloc: Global, row: &Refused) -> Result<Ran, Fail> {
    let came = vec![in alloc; joined(alloc, row.fields)?]?;
    run(alloc, &GENESIS, row.bits, &came, &[])
}

fn is_refused(alloc: Global, row: &Refused) -> Result<bool, Fail> {
    let ran = run_refused(alloc, row)?;
    Ok(
        ran.told.as_slice() == [Told::Refused(row.why)].as_slice()
            && ran.bits == row.bits
            && ran.counts == (1, 0, 1),
    )
}

#[test]
fn refusals(rt: HostRuntime) -> Result<(), Fail> {
    for (place, row) in REFUSED.iter().enumerate() {
        holds(&rt, place, is_refused(rt.alloc(), row)?);
    }
    Ok(())
}

/// A draft on genesis, of salt 1.
fn draft_on(alloc: Global, genesis: &[u8]) -> Result<Draft, Fail> {
    Ok(Draft {
        salt: 1,
        parents: Parents::of(Vec::from_slice(alloc, &[BlockId::of(genesis)])?),
        txs: Txs::of(Vec::new(alloc)),
    })
}

/// The draft with each nonce up to the least one that meets eight bits of work.
fn attempts(alloc: Global, draft: &Draft) -> Result<Vec<Vec<u8>>, Fail> {
    if draft.parents.as_slice().len() > 64 || draft.txs.as_slice().len() > 256 {
        return Err("too long".into());
    }
    let found = seek_nonce(alloc, draft, 8, 100_000)?.ok_or("no nonce")?;
    let mut texts = Vec::new(alloc);
    for nonce in 0..=found {
        texts.push(draft_bytes(alloc, draft, nonce)?)?;
    }
    Ok(texts)
}

/// Whether all but the last missed the work, and the last was kept.
fn are_worked(told: &[Told]) -> bool {
    match told.split_last() {
        Some((last, missed)) => {
            *last == Told::Kept(1)
                && !missed.is_empty()
                && missed
                    .iter()
                    .all(|one| *one == Told::Refused(Refusal::Work))
        }
        None => false,
    }
}

fn run_attempts(alloc: Global, genesis: &[u8]) -> Result<Ran, Fail> {
    let texts = attempts(alloc, &draft_on(alloc, genesis)?)?;
    run(alloc, genesis, 8, &texts, &[])
}

/// It is kept with that nonce, and with none below it.
#[test]
fn work_of_eight_bits(rt: HostRuntime) -> Result<(), Fail> {
    let ran = run_attempts(rt.alloc(), &GENESIS)?;
    holds(&rt, 0, are_worked(&ran.told) && ran.counts == (2, 0, 2));
    Ok(())
}
