//! Ids as texts, blocks put together by hand, and sinks: what the tests of lines and those of the
//! node stand on.

use sp_ids::BlockId;
use sp_io::{Calls, Fails, MemSink};
use std::alloc::Global;
use std::test::Fail;

/// The id of the smallest genesis block, SHA-256 by another program, as are the others.
pub const GENESIS_ID: &str = "21fc3f955c14305ed66b2f6064de082e8447f29048da3ab7c5c01090c1b722ab";

/// The id of the block of salt 1 on it.
pub const CHILD_ID: &str = "ebc352d52d8a2d8f607bc82f6edc468679599eb0e8a8429d88c82e4cffb62854";

/// The id of the block of salt 0 on the id that no block has.
pub const ORPHAN_ID: &str = "c5b1bd0534920e7fd27451247e04f3db827c371b14571c94a01eaf40b58e00f5";

/// An id that no block has, as a text.
pub const NOBODY_ID: &str = "0000000000000000000000000000000000000000000000000000000000000000";

pub fn read_id(text: &str) -> Result<BlockId, Fail> {
    Ok(BlockId::from_hex(text.as_bytes()).ok().ok_or("no id")?)
}

/// The bytes of the block of this salt on one parent, with so many bytes behind it, put together
/// by hand.
pub fn child_of(alloc: Global, salt: u8, parent: &str, more: usize) -> Result<Vec<u8>, Fail> {
    let parent = read_id(parent)?;
    let behind = vec![in alloc; 0u8; more]?;
    let salt = [1, salt];
    let fields: [&[u8]; 6] = [&salt, &[0; 15], &[1], parent.as_bytes(), &[0; 2], &behind];
    Ok(fields.concat(alloc)?)
}

/// The room for a line.
pub const LINE: usize = 192;

/// A sink with this much room, which takes so many bytes a call. This call of it fails.
pub fn sink_of(
    alloc: Global,
    room: usize,
    step: u16,
    failing: Option<u32>,
) -> Result<MemSink, Fail> {
    if step == 0 {
        return Err("no step".into());
    }
    let fails = match failing {
        Some(call) => Fails::At(Calls::of(Vec::from_slice(alloc, &[call])?)),
        None => Fails::Never,
    };
    Ok(MemSink::new(alloc, room, step, fails)?)
}
