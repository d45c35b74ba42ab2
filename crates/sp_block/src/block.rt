//! Blocks that were read.

ghost use Rattle.std.specs.Prelude.{◌≤◌, ◌↔◌, IsTrue};
ghost use Rattle.sp_ids.specs.Bits.{BeginsWithZeros};

use crate::list::Parents;
use sp_ids::BlockId;
use sp_tx::{Bytes, Txs};
use std::marker::Model;

/// A block: the bytes that spell it, their SHA-256, and what they spell.
///
/// In bytes: the version (1 byte, 1), the salt and the nonce (8 bytes each, the lowest first), the
/// number of parents (1 byte), their ids (32 bytes each), the number of transactions (2 bytes, the
/// lowest first), the transactions; at most 65,536 bytes. The table of the format, with each
/// field's rule, stands in docs/FORMATS.md under "Blocks".
#[derive(Debug, Drop)]
pub struct Block {
    /// The SHA-256 of the bytes.
    pub id: BlockId,
    pub bytes: Bytes,
    /// Any number: it tells apart blocks that are else the same.
    pub salt: u64,
    /// Any number: it is changed until the id meets the work.
    pub nonce: u64,
    /// Strictly ascending; none in a genesis block, 1 to 64 in another.
    pub parents: Parents,
    /// At most 256, of different ids, with no outpoint in common.
    pub txs: Txs,
}

impl Model for Block {
    ghost use Rattle.sp_block.specs.Block.{IsBlock, ReadBlock};

    ghost Value = { ReadBlock };

    ghost view = { λ b. record { id = b.id; bytes = b.bytes; salt = b.salt; nonce = b.nonce; parents = b.parents; txs = b.txs } };

    ghost invariant = { λ b. IsBlock (record { id = b.id; bytes = b.bytes; salt = b.salt; nonce = b.nonce; parents = b.parents; txs = b.txs }) };
}

/// Whether the first `bits` bits of a block's id are zero, each byte read from its highest bit. It
/// takes time in proportion to `bits`; the id stands in the block.
pub fn check_work(block: &Block, bits: u8) -> bool
    requires { bits ≤ 64 }
    ensures { IsTrue result ↔ BeginsWithZeros block.now.id bits }
{
    block.id.meets(bits)
}
