//! The words for refusals, apart from the lines since they are a table.

ghost use Rattle.std.specs.Prelude.{◌≡◌, ◌≤◌, length};
ghost use Rattle.sp_report.specs.Reasons as meant;

use sp_block::BlockFault;
use sp_engine::Refusal;
use sp_tx::TxFault;

// The word for the fault of a transaction.
fn tx_reason(fault: TxFault) -> &'static [u8]
    ensures word { result.now ≡ meant.tx_reason fault }
    ensures short { length result.now ≤ 15 }
{
    match fault {
        TxFault::Short => b"tx-short",
        TxFault::InputCount => b"tx-input-count",
        TxFault::InputOrder => b"tx-input-order",
        TxFault::PreimageLength => b"tx-preimage",
        TxFault::OutputCount => b"tx-output-count",
        TxFault::Amount => b"tx-amount",
        TxFault::Sum => b"tx-sum",
    }
}

// The word for the fault of a block.
fn block_reason(fault: BlockFault) -> &'static [u8]
    ensures word { result.now ≡ meant.block_reason fault }
    ensures short { length result.now ≤ 15 }
{
    match fault {
        BlockFault::TooLong => b"too-long",
        BlockFault::Short => b"short",
        BlockFault::Version => b"version",
        BlockFault::ParentCount => b"parent-count",
        BlockFault::ParentOrder => b"parent-order",
        BlockFault::TxCount => b"tx-count",
        BlockFault::Tx(fault) => tx_reason(fault),
        BlockFault::Grant => b"grant",
        BlockFault::SameTx => b"same-tx",
        BlockFault::SameOutpoint => b"same-outpoint",
        BlockFault::Trailing => b"trailing",
    }
}

// The word for a refusal.
pub(crate) fn reason(refusal: Refusal) -> &'static [u8]
    ensures word { result.now ≡ meant.reason refusal }
    ensures short { length result.now ≤ 15 }
{
    match refusal {
        Refusal::Spelling(fault) => block_reason(fault),
        Refusal::Work => b"work",
    }
}
