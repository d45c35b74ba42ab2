//! Reading a block off the bytes that spell it.

ghost use Rattle.std.specs.Prelude.{◌≡◌, ◌++◌, Err, IfErr, IfOk, map, Ok};
ghost use Rattle.sp_form.specs.Reading.{Answers, IsCause};
ghost use Rattle.sp_tx.specs.Spending.{id_of};
ghost use Rattle.sp_block.specs.Block.{block_of, parts_of};
ghost use Rattle.sp_block.specs.Format.{Parts};
ghost use Rattle.sp_block.specs.Reading.{parts_in};
ghost use Rattle.sp_block.specs.Spelling.{HasBlockFault, SpellsBlock};
ghost use Rattle.sp_block.specs.declared.fault.BlockFault.{BlockFault};

use crate::block::Block;
use crate::fault::{BlockFault, ReadBlockFault};
use crate::reader::{BlockReader, Content};
use sp_ids::{BlockId, TxId};
use sp_tx::Bytes;
use std::alloc::Global;

/// A block has at most so many bytes.
const LONGEST: usize = 65_536;

fn content(
    alloc: Global,
    bytes: &[u8],
    genesis: bool,
    tx_ids: &mut Vec<TxId>,
) -> Result<Content, ReadBlockFault>
    ensures ids { IfOk result (λ content.
        tx_ids.new.items ≡ tx_ids.old.items ++ map id_of content.txs) }
    ensures found { IfOk result (λ content. SpellsBlock bytes.now genesis (parts_in content)) }
    ensures fault { IfErr result (IsCause (HasBlockFault bytes.now genesis)) }
{
    if bytes.len() > LONGEST {
        return Err(ReadBlockFault::Fault(BlockFault::TooLong));
    }
    let mut reader = BlockReader::new(bytes);
    let content = reader.block(alloc, genesis, tx_ids)?;
    if !reader.is_empty() {
        return Err(ReadBlockFault::Fault(BlockFault::Trailing));
    }
    Ok(content)
}

fn found_block(
    alloc: Global,
    bytes: &[u8],
    genesis: bool,
    tx_ids: &mut Vec<TxId>,
) -> Result<Block, ReadBlockFault>
    ensures ids { IfOk result (λ block.
        tx_ids.new.items ≡ tx_ids.old.items ++ map id_of block.txs) }
    ensures found { IfOk result (λ block. SpellsBlock bytes.now genesis (parts_of block)) }
    ensures block { IfOk result (λ block. block ≡ block_of bytes.now (parts_of block)) }
    ensures fault { IfErr result (IsCause (HasBlockFault bytes.now genesis)) }
{
    let Content {
        salt,
        nonce,
        parents,
        txs,
    } = content(alloc, bytes, genesis, tx_ids)?;
    let copy = Vec::from_slice(alloc, bytes)?;
    Ok(Block {
        id: BlockId::of(bytes),
        bytes: Bytes::of(copy),
        salt,
        nonce,
        parents,
        txs,
    })
}

/// The block that the bytes spell, as a genesis block or as another one.
///
/// It takes time in proportion to the bytes, and about n log n for the look-ups of earlier ids and
/// outpoints, n being the number of the block's transactions and inputs.
///
/// # Errors
///
/// The first fault of the bytes in the order of the format's table: more than 65,536 bytes; an end
/// within the head or before it; another version than 1; a count of parents that the kind of block
/// doesn't have (none in genesis, 1 to 64 in others); parents that don't ascend; more than 256
/// transactions; a transaction's own fault, an end within it among them; an input in genesis, or a
/// transaction without one elsewhere; a transaction's id again; an outpoint that an earlier
/// transaction of the block spends, too; bytes behind the last transaction. `Memory` where the
/// block's lists or its copy of the bytes found none.
pub fn read_block(alloc: Global, bytes: &[u8], genesis: bool) -> Result<Block, ReadBlockFault>
    // What is answered stands there.
    ensures found { IfOk result (λ block. SpellsBlock bytes.now genesis (parts_of block)) }
    ensures block { IfOk result (λ block. block ≡ block_of bytes.now (parts_of block)) }
    ensures fault { IfErr result (IsCause (HasBlockFault bytes.now genesis)) }

    // What stands there is answered, unless memory runs out.
    ensures only { (parts : Parts) → SpellsBlock bytes.now genesis parts → Answers result (Ok (block_of bytes.now parts)) }
    ensures only_fault { (fault : BlockFault) → HasBlockFault bytes.now genesis fault → Answers result (Err fault) }
{
    let mut tx_ids = Vec::new(alloc);
    found_block(alloc, bytes, genesis, &mut tx_ids)
}

/// The same, with the ids of the block's transactions, in their order, put behind what `tx_ids` has:
/// each was found when the transaction was judged, so whoever keeps them needs no digest of its bytes
/// again.
///
/// # Errors
///
/// Those of `read_block`. Some ids may then stand behind what `tx_ids` had.
pub fn read_block_with_ids(
    alloc: Global,
    bytes: &[u8],
    genesis: bool,
    tx_ids: &mut Vec<TxId>,
) -> Result<Block, ReadBlockFault>
    ensures ids { IfOk result (λ block.
        tx_ids.new.items ≡ tx_ids.old.items ++ map id_of block.txs) }

    // What is answered stands there.
    ensures found { IfOk result (λ block. SpellsBlock bytes.now genesis (parts_of block)) }
    ensures block { IfOk result (λ block. block ≡ block_of bytes.now (parts_of block)) }
    ensures fault { IfErr result (IsCause (HasBlockFault bytes.now genesis)) }

    // What stands there is answered, unless memory runs out.
    ensures only { (parts : Parts) → SpellsBlock bytes.now genesis parts → Answers result (Ok (block_of bytes.now parts)) }
    ensures only_fault { (fault : BlockFault) → HasBlockFault bytes.now genesis fault → Answers result (Err fault) }
{
    found_block(alloc, bytes, genesis, tx_ids)
}
