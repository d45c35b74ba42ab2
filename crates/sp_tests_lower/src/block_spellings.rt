//! Blocks field by field: bytes, their digest by another program, and all that they spell.

use crate::block_parts::{GRANT, HEAD, PARENT, RICH, SPEND, TWO};
use crate::pieces::{HIGH, LOW, Pieces, joined};
use sp_block::{Block, Blocks, check_work, read_block};
use sp_ids::BlockId;
use sp_tx::{Tx, write_tx};
use std::alloc::{AllocError, Global};
use std::test::Fail;

/// A block: whether it is read as genesis, its bytes, their SHA-256 and how many zeros that begins with, and
/// what the bytes spell.
pub struct Spelled {
    pub genesis: bool,
    pub parts: &'static [Pieces],
    pub id: &'static [u8; 64],
    pub zeros: u8,
    pub salt: u64,
    pub nonce: u64,
    pub parents: &'static [[u8; 32]],
    pub txs: &'static [Pieces],
}

pub const SPELLED: &[Spelled] = &[
    Spelled {
        genesis: true,
        parts: &[&HEAD, &[&[0], &[0, 0]]],
        id: b"21fc3f955c14305ed66b2f6064de082e8447f29048da3ab7c5c01090c1b722ab",
        zeros: 2,
        salt: 0,
        nonce: 0,
        parents: &[],
        txs: &[],
    },
    Spelled {
        genesis: true,
        parts: &[&HEAD, &[&[0], &[1, 0]], &GRANT],
        id: b"d68eb442eb64b11c2cd31108c21ce6da71b798866b398e9432bdc5362927f7ee",
        zeros: 0,
        salt: 0,
        nonce: 0,
        parents: &[],
        txs: &[&GRANT],
    },
    Spelled {
        genesis: false,
        parts: &[&[
            &[1],
            &[0xef, 0xcd, 0xab, 0x89, 0x67, 0x45, 0x23, 0x01],
            &[0x95, 0x1f, 0, 0, 0, 0, 0, 0],
            &[1],
            &PARENT,
            &[0, 0],
        ]],
        id: b"000f37632175a191409d5c6efa634da3d4c928745aa321b0d241b67f57934e6b",
        zeros: 12,
        salt: 0x0123_4567_89ab_cdef,
        nonce: 8085,
        parents: &[PARENT],
        txs: &[],
    },
    Spelled {
        genesis: false,
        parts: RICH,
        id: b"320dd2cc730438cb3f865d052c1b892b7f4bb8f2bdbfa5ddacbc536f9f52ee82",
        zeros: 2,
        salt: 0x0102_0304_0506_0708,
        nonce: 0x8000_0000_0000_00ff,
        parents: &[LOW, HIGH],
        txs: &[&SPEND, &TWO],
    },
];

fn spelling(alloc: Global, txs: &[Tx]) -> Result<Vec<u8>, Fail> {
    let mut bytes = Vec::new(alloc);
    for tx in txs {
        write_tx(tx, &mut bytes)?;
    }
    Ok(bytes)
}

pub fn ids(alloc: Global, parents: &[[u8; 32]]) -> Result<Vec<BlockId>, AllocError> {
    let mut ids = Vec::new(alloc);
    for &parent in parents {
        ids.push(BlockId::from_bytes(parent))?;
    }
    Ok(ids)
}

fn has_parts(alloc: Global, block: &Block, row: &Spelled) -> Result<bool, Fail> {
    let parents = ids(alloc, row.parents)?;
    let txs = spelling(alloc, block.txs.as_slice())?;
    Ok(
        (block.salt, block.nonce) == (row.salt, row.nonce)
            && block.parents.as_slice() == parents.as_slice()
            && txs == joined(alloc, row.txs)?,
    )
}

/// Whether it has the digits, and meets so many bits and no more.
fn has_id(block: &Block, row: &Spelled) -> bool {
    for bits in 0..65u8 {
        if check_work(block, bits) != (bits <= row.zeros) {
            return false;
        }
    }
    let mut digits = [0; 64];
    block.id.to_hex(&mut digits);
    digits == *row.id
}

/// The block that the row's parts spell, alone in a list.
fn blocks_of(alloc: Global, row: &Spelled) -> Result<Blocks, Fail> {
    let block = read_block(alloc, &joined(alloc, row.parts)?, row.genesis)?;
    let mut list = Vec::new(alloc);
    list.push(block)?;
    Ok(Blocks::of(list))
}

fn is_spelled(alloc: Global, row: &Spelled) -> Result<bool, Fail> {
    let bytes = joined(alloc, row.parts)?;
    let blocks = blocks_of(alloc, row)?;
    let Some(block) = blocks.as_slice().first() else {
        return Ok(false);
    };
    Ok(
        block.bytes.as_slice() == bytes.as_slice()
            && has_id(block, row)
            && has_parts(alloc, block, row)?,
    )
}

/// The first of the rows that spells another block.
fn misspelled(alloc: Global, rows: &[Spelled]) -> Result<Option<usize>, Fail> {
    for (place, row) in rows.iter().enumerate() {
        if !is_spelled(alloc, row)? {
            return Ok(Some(place));
        }
    }
    Ok(None)
}

#[test]
fn blocks(rt: HostRuntime) -> Result<(), Fail> {
    assert_eq!(rt; misspelled(rt.alloc(), SPELLED)?, None);
    Ok(())
}
