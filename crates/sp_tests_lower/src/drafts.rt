//! Drafts: the bytes that they are written as, and the nonces that are found for one.

use crate::block_parts::PARENT;
use crate::block_spellings::{SPELLED, Spelled, ids};
use crate::pieces::{Pieces, joined};
use sp_block::{Draft, Parents, draft_bytes, seek_nonce};
use sp_fixtures::flat;
use sp_tx::{Txs, read_tx};
use std::alloc::Global;
use std::test::Fail;

/// A draft, its parents in this order.
fn draft(alloc: Global, salt: u64, parents: &[[u8; 32]], txs: &[Pieces]) -> Result<Draft, Fail> {
    let mut list = Vec::new(alloc);
    for tx in txs {
        let (tx, _) = read_tx(alloc, &flat(alloc, tx)?, 0)?;
        list.push(tx)?;
    }
    Ok(Draft {
        salt,
        parents: Parents::of(ids(alloc, parents)?),
        txs: Txs::of(list),
    })
}

fn written(alloc: Global, draft: &Draft, nonce: u64) -> Result<Vec<u8>, Fail> {
    if draft.parents.as_slice().len() > 64 || draft.txs.as_slice().len() > 256 {
        return Err("too long".into());
    }
    Ok(draft_bytes(alloc, draft, nonce)?)
}

/// The bytes of a draft of the row's parts, whose parents don't ascend.
fn drafted(alloc: Global, row: &Spelled) -> Result<Vec<u8>, Fail> {
    let mut parents = row.parents.to_vec(alloc)?;
    parents.reverse();
    written(
        alloc,
        &draft(alloc, row.salt, &parents, row.txs)?,
        row.nonce,
    )
}

/// The first of the rows whose draft is written otherwise.
fn miswritten(alloc: Global, rows: &[Spelled]) -> Result<Option<usize>, Fail> {
    for (place, row) in rows.iter().enumerate() {
        if drafted(alloc, row)? != joined(alloc, row.parts)? {
            return Ok(Some(place));
        }
    }
    Ok(None)
}

#[test]
fn drafts(rt: HostRuntime) -> Result<(), Fail> {
    assert_eq!(rt; miswritten(rt.alloc(), SPELLED)?, None);
    Ok(())
}

/// The bits, the tries, and the nonce that is found for a draft on `PARENT`.
type Search = (u8, u32, Option<u64>);

const SEARCHES: &[Search] = &[
    (0, 0, None),
    (0, 1, Some(0)),
    (1, 1, None),
    (1, 2, Some(1)),
    (3, 9, Some(1)),
    (4, 47, None),
    (4, 48, Some(47)),
    (8, 181, None),
    (8, 182, Some(181)),
    (12, 8085, None),
    (12, 8086, Some(8085)),
    (64, 99, None),
];

/// The same for many tries, the last of them 2^20 digests of 52 bytes.
const LONG_SEARCHES: &[Search] = &[
    (20, 64_242, None),
    (20, 64_243, Some(64_242)),
    (21, 1 << 20, None),
];

fn sought(alloc: Global, draft: &Draft, bits: u8, tries: u32) -> Result<Option<u64>, Fail> {
    let is_short = draft.parents.as_slice().len() <= 64 && draft.txs.as_slice().len() <= 256;
    if !is_short || bits > 64 {
        return Err("too long".into());
    }
    Ok(seek_nonce(alloc, draft, bits, tries)?)
}

/// The first of the rows whose search finds otherwise.
fn missed(alloc: Global, searches: &[Search]) -> Result<Option<usize>, Fail> {
    let draft = draft(alloc, 0x0123_4567_89ab_cdef, &[PARENT], &[])?;
    for (place, (bits, tries, answer)) in searches.iter().enumerate() {
        if sought(alloc, &draft, *bits, *tries)? != *answer {
            return Ok(Some(place));
        }
    }
    Ok(None)
}

#[test]
fn searches(rt: HostRuntime) -> Result<(), Fail> {
    assert_eq!(rt; missed(rt.alloc(), SEARCHES)?, None);
    Ok(())
}

/// A second or less, as it is built for the gate.
#[test]
fn long_searches(rt: HostRuntime) -> Result<(), Fail> {
    assert_eq!(rt; missed(rt.alloc(), LONG_SEARCHES)?, None);
    Ok(())
}
