//! The judgement of bytes that arrive, before anything is asked of the kept blocks.

ghost use Rattle.std.specs.Prelude.{◌≡◌, ◌≤◌, ◌++◌, IfOk, map};
ghost use Rattle.sp_ids.specs.Bits.{BeginsWithZeros};
ghost use Rattle.sp_tx.specs.Spending.{id_of};
ghost use Rattle.sp_block.specs.Block.{IsOther};
ghost use Rattle.sp_engine.specs.Arrivals.{valid_in};

use crate::answer::Refusal;
use sp_block::{Block, ReadBlockFault, check_work, read_block_with_ids};
use sp_ids::{Memory, TxId};
use std::alloc::Global;

/// The block that the bytes spell, where its id meets the work, or why they are refused. The ids of
/// its transactions are put behind the others.
pub(crate) fn valid_block(
    alloc: Global,
    bits: u8,
    bytes: &[u8],
    tx_ids: &mut Vec<TxId>,
) -> Result<Result<Block, Refusal>, Memory>
    requires { bits ≤ 64 }
    ensures ids { IfOk result (λ found. IfOk found (λ block.
        tx_ids.new.items ≡ tx_ids.old.items ++ map id_of block.txs)) }
    ensures found { IfOk result (λ found. found ≡ valid_in bits bytes.now) }
    ensures other { IfOk result (λ found. IfOk found IsOther) }
    ensures work { IfOk result (λ found. IfOk found (λ block. BeginsWithZeros block.id bits)) }
{
    match read_block_with_ids(alloc, bytes, false, tx_ids) {
        Ok(block) => {
            if check_work(&block, bits) {
                Ok(Ok(block))
            } else {
                Ok(Err(Refusal::Work))
            }
        }
        Err(ReadBlockFault::Fault(fault)) => Ok(Err(Refusal::Spelling(fault))),
        Err(ReadBlockFault::Memory) => Err(Memory),
    }
}
