//! Blocks and their bytes, both written down by hand from the table of the format: which bytes are
//! read, and with which fault others are refused.

use crate::block_parts::{HEAD, Part, RICH, fields_of};
use crate::block_rows::{PARENT_COUNT, ROWS, Row, SHORT, TOO_LONG, TX_COUNT, TX_SHORT, VERSION};
use crate::pieces::{LOCK, LOW, ONE, joined};
use sp_block::{ReadBlockFault, read_block, read_block_with_ids};
use sp_fixtures::flat;
use sp_ids::TxId;
use std::alloc::{AllocError, Global};
use std::test::Fail;

/// The bytes of all the parts, one after another.
fn assembled(alloc: Global, parts: &[Part]) -> Result<Vec<u8>, AllocError> {
    let mut bytes = Vec::new(alloc);
    for part in parts {
        match *part {
            Part::Bytes(raw) => bytes.extend_from_slice(raw)?,
            named => bytes.extend_from_slice(&flat(alloc, fields_of(named))?)?,
        }
    }
    Ok(bytes)
}

/// Reads a block, and counts its transactions.
fn read(alloc: Global, bytes: &[u8], genesis: bool) -> Result<usize, ReadBlockFault> {
    let block = read_block(alloc, bytes, genesis)?;
    Ok(block.txs.as_slice().len())
}

/// The first of the rows that is read otherwise.
fn misread(alloc: Global, rows: &[Row]) -> Result<Option<usize>, Fail> {
    for (place, (genesis, parts, answer)) in rows.iter().enumerate() {
        if read(alloc, &assembled(alloc, parts)?, *genesis) != *answer {
            return Ok(Some(place));
        }
    }
    Ok(None)
}

#[test]
fn reads(rt: HostRuntime) -> Result<(), Fail> {
    assert_eq!(rt; misread(rt.alloc(), ROWS)?, None);
    Ok(())
}

/// A transaction that spends the outputs 0 to 15 of another, the first 15 with one preimage. Each preimage
/// stands behind its length.
fn sixteen(alloc: Global, id: u8, preimage: &[u8], last: &[u8]) -> Result<Vec<u8>, AllocError> {
    let mut bytes = Vec::from_slice(alloc, &[16])?;
    for index in 0..16u8 {
        bytes.extend_from_slice(&[id; 32])?;
        bytes.push(index)?;
        bytes.extend_from_slice(if index < 15 { preimage } else { last })?;
    }
    bytes.extend_from_slice(&flat(alloc, &[&[1], &ONE, &LOCK])?)?;
    Ok(bytes)
}

/// As many transactions of 16 inputs as a block can hold, and preimages that fill its last byte.
fn longest(alloc: Global) -> Result<Vec<u8>, AllocError> {
    let mut bytes = joined(alloc, &[&HEAD, &[&[1], &LOW, &[108, 0]]])?;
    for id in 0..107u8 {
        bytes.extend_from_slice(&sixteen(alloc, id, b"\x01a", b"\x01a")?)?;
    }
    let preimage = flat(alloc, &[&[30], &[5; 30]])?;
    let last = flat(alloc, &[&[34], &[5; 34]])?;
    bytes.extend_from_slice(&sixteen(alloc, 107, &preimage, &last)?)?;
    Ok(bytes)
}

#[test]
fn ids_are_told_behind_those_from_before(rt: HostRuntime) -> Result<(), Fail> {
    let alloc = rt.alloc();
    let first = TxId::of(b"first");
    let mut ids = Vec::from_slice(alloc, &[first])?;
    let block = read_block_with_ids(alloc, &longest(alloc)?, false, &mut ids)?;
    assert_eq!(rt; ids.len(), 109);
    assert!(rt; ids.first() == Some(&first));
    for (tx, id) in block.txs.as_slice().iter().zip(ids.iter().skip(1)) {
        assert_eq!(rt; sp_tx::id(alloc, tx)?, *id);
    }
    Ok(())
}

/// What is read of the longest block, and of one byte more.
fn read_longest(alloc: Global) -> Result<[(usize, Result<usize, ReadBlockFault>); 2], Fail> {
    let mut bytes = longest(alloc)?;
    let whole = (bytes.len(), read(alloc, &bytes, false));
    bytes.push(0)?;
    Ok([whole, (bytes.len(), read(alloc, &bytes, false))])
}

/// What is read of so many bytes that are all 2.
fn read_twos(alloc: Global, size: usize) -> Result<Result<usize, ReadBlockFault>, Fail> {
    let bytes = vec![in alloc; 2u8; size]?;
    Ok(read(alloc, &bytes, true))
}

/// At most 65,536 bytes, which is judged before all fields.
#[test]
fn lengths(rt: HostRuntime) -> Result<(), Fail> {
    let read = read_longest(rt.alloc())?;
    assert!(rt; read == [(65_536, Ok(108)), (65_537, Err(TOO_LONG))]);
    let twos = [
        read_twos(rt.alloc(), 65_536)?,
        read_twos(rt.alloc(), 65_537)?,
    ];
    assert!(rt; twos == [Err(VERSION), Err(TOO_LONG)]);
    Ok(())
}

/// Bytes that are read as another block than genesis: this many parents, and this many transactions that
/// each spend an outpoint of their own.
fn block_of(alloc: Global, parents: u8, txs: u16) -> Result<Vec<u8>, AllocError> {
    let mut bytes = joined(alloc, &[&HEAD])?;
    bytes.push(parents)?;
    for parent in 0..parents {
        bytes.extend_from_slice(&[parent; 32])?;
    }
    bytes.extend_from_slice(&txs.to_le_bytes())?;
    for tx in 0..txs {
        let [low, high] = tx.to_le_bytes();
        let fields: [&[u8]; 7] = [&[1], &[high; 32], &[low], &[1, b'a'], &[1], &ONE, &LOCK];
        bytes.extend_from_slice(&flat(alloc, &fields)?)?;
    }
    Ok(bytes)
}

/// Numbers of parents and of transactions, and the fault if they are too many.
type Count = (u8, u16, Result<usize, ReadBlockFault>);

const COUNTS: &[Count] = &[
    (1, 0, Ok(0)),
    (1, 256, Ok(256)),
    (1, 257, Err(TX_COUNT)),
    (64, 256, Ok(256)),
    (65, 0, Err(PARENT_COUNT)),
];

/// The first of the rows that is read otherwise.
fn miscounted(alloc: Global, rows: &[Count]) -> Result<Option<usize>, Fail> {
    for (place, (parents, txs, answer)) in rows.iter().enumerate() {
        if read(alloc, &block_of(alloc, *parents, *txs)?, false) != *answer {
            return Ok(Some(place));
        }
    }
    Ok(None)
}

#[test]
fn counts(rt: HostRuntime) -> Result<(), Fail> {
    assert_eq!(rt; miscounted(rt.alloc(), COUNTS)?, None);
    Ok(())
}

/// The head ends behind the version, the salt, the nonce, the count of parents, two parents and the count
/// of transactions; 77 and 153 bytes of transactions follow.
const HEAD_SIZE: usize = 1 + 8 + 8 + 1 + 2 * 32 + 2;

/// Whether each proper front of these bytes is short, one that ends behind the head of a transaction.
fn are_short(alloc: Global, bytes: &[u8]) -> bool {
    for size in 0..bytes.len() {
        let fault = if size < HEAD_SIZE { SHORT } else { TX_SHORT };
        if read(alloc, &bytes[..size], false) != Err(fault) {
            return false;
        }
    }
    true
}

#[test]
fn fronts(rt: HostRuntime) -> Result<(), Fail> {
    let bytes = joined(rt.alloc(), RICH)?;
    assert_eq!(rt; bytes.len(), HEAD_SIZE + 77 + 153);
    assert!(rt; are_short(rt.alloc(), &bytes));
    Ok(())
}
