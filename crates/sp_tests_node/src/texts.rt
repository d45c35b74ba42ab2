//! The blocks of the tests, and journals of them put together by hand.

use sp_disk::{MemDisk, Pick};
use sp_feed::FeedHead;
use sp_fixtures::{GENESIS, Numbered, genesis_of};
use sp_ids::BlockId;
use sp_io::Fails;
use sp_model::Profile;
use std::alloc::Global;
use std::test::Fail;

/// Outcomes of a crash, one of each kind.
pub const PICKS: [Pick; 4] = [Pick::Old, Pick::New, Pick::Fill(0), Pick::Fill(0xA5)];

/// A genesis block of salt 1.
pub const OTHER: [u8; 20] = [1, 1, 0, 0, 0, 0, 0, 0, 0, 0, 0, 0, 0, 0, 0, 0, 0, 0, 0, 0];

/// The id of the genesis block of salt 0, SHA-256 by another program, as is that of salt 1.
const GENESIS_ID: &str = "21fc3f955c14305ed66b2f6064de082e8447f29048da3ab7c5c01090c1b722ab";

const OTHER_ID: &str = "da774fa5934ac062f6c8dcf0b4747ec0e2cb6783768d13b234df2cf611f24ca5";

/// Two blocks on genesis, one on the first of them, and one whose parent never comes. Without
/// transactions, a block has 52 bytes, and its record 57.
pub const BLOCKS: &[&[usize]] = &[&[0], &[0], &[1], &[999]];

/// The genesis block of salt 0 or 1.
fn genesis_bytes(salt: u8) -> &'static [u8] {
    if salt == 0 { &GENESIS } else { &OTHER }
}

/// The id of that block.
pub fn genesis_id(salt: u8) -> Result<BlockId, Fail> {
    let text = if salt == 0 { GENESIS_ID } else { OTHER_ID };
    Ok(BlockId::from_hex(text.as_bytes()).ok().ok_or("no id")?)
}

/// The head of a feed of this profile with these bits of work and that block.
pub fn head_in(alloc: Global, profile: Profile, bits: u8, salt: u8) -> Result<FeedHead, Fail> {
    if bits > 64 {
        return Err("more than 64 bits".into());
    }
    let genesis = genesis_of(alloc, genesis_bytes(salt))?;
    Ok(FeedHead {
        profile,
        bits,
        genesis,
    })
}

/// The same in profile 1.
pub fn head_of(alloc: Global, bits: u8, salt: u8) -> Result<FeedHead, Fail> {
    head_in(alloc, Profile::One, bits, salt)
}

/// Puts the record of a block behind a journal's bytes.
pub fn add_record(bytes: &mut Vec<u8>, block: &[u8]) -> Result<(), Fail> {
    let length = u32::try_from(block.len())?;
    bytes.extend_from_slice(&[0xA5])?;
    bytes.extend_from_slice(&length.to_le_bytes())?;
    bytes.extend_from_slice(block)?;
    Ok(())
}

/// A journal of these bits of work, that genesis block and the records of these blocks, without what
/// stands behind them.
pub fn open_journal(
    bits: u8,
    salt: u8,
    blocks: &Numbered,
    numbers: &[usize],
) -> Result<Vec<u8>, Fail> {
    let mut bytes = Vec::from_slice(blocks.alloc, b"\xA5SPCTRJ01")?;
    bytes.extend_from_slice(&[bits, 20, 0, 0, 0])?;
    bytes.extend_from_slice(genesis_bytes(salt))?;
    for number in numbers {
        add_record(&mut bytes, blocks.text(*number))?;
    }
    Ok(bytes)
}

/// The same with the closed gate.
pub fn journal(bits: u8, salt: u8, blocks: &Numbered, numbers: &[usize]) -> Result<Vec<u8>, Fail> {
    let mut bytes = open_journal(bits, salt, blocks, numbers)?;
    bytes.extend_from_slice(&[0])?;
    Ok(bytes)
}

/// A disk that begins with these bytes, with room for so many more in all, and for enough calls.
pub fn disk_of(alloc: Global, bytes: &[u8], room: usize, fails: Fails) -> Result<MemDisk, Fail> {
    let bytes = Vec::from_slice(alloc, bytes)?;
    let capacity = bytes.len().saturating_add(room);
    Ok(MemDisk::new(alloc, bytes, capacity, 2048, fails)?)
}
