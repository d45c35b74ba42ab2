//! The present blocks of an engine, copied.

ghost use Rattle.std.specs.Prelude.{◌≡◌, ◌==◌, All, IfOk, find, false, Some};
ghost use Rattle.sp_block.specs.Block.{ReadBlock};
ghost use Rattle.sp_pool.specs.Kept.{ids_of};
ghost use Rattle.sp_engine.specs.Presence.{order_of};
ghost use Rattle.sp_cert.specs.Refusals.{IsFound};

use sp_block::{Block, ReadBlockFault, read_block};
use sp_engine::Engine;
use sp_ids::Memory;
use std::alloc::Global;

// A copy of a block, read off its bytes.
fn copied(alloc: Global, block: &Block) -> Result<Block, Memory>
    ensures { IfOk result (λ copy. copy ≡ block.now) }
{
    let genesis = block.parents.as_slice().is_empty();
    match read_block(alloc, block.bytes.as_slice(), genesis) {
        Ok(copy) => Ok(copy),
        Err(ReadBlockFault::Memory) => Err(Memory),
        // Its bytes spell it.
        Err(ReadBlockFault::Fault(_)) => unreachable!(),
    }
}

/// Copies of the present blocks, in the order in which they became so.
///
/// # Errors
///
/// Memory was refused.
pub(crate) fn present_blocks(alloc: Global, engine: &Engine) -> Result<Vec<Block>, Memory>
    ensures ids { IfOk result (λ blocks. ids_of blocks.items ≡ order_of engine.now.kept) }
    ensures kept { IfOk result (λ blocks. All (IsFound engine.now.kept) blocks.items) }
{
    let mut blocks = Vec::new(alloc);
    // Tells the proof that each of them is kept.
    let dag = engine.dag();
    'places: for n in 0..dag.len() {
        match engine.block(&dag.id(n)) {
            Some(block) => blocks.push(copied(alloc, block)?)?,
            // Each present block is kept.
            None => unreachable!(),
        }
    }
    Ok(blocks)
}
