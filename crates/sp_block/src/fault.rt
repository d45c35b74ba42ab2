//! Why bytes spell no block.

use sp_form::ReadFault;
use sp_tx::TxFault;

/// What is wrong with the bytes: the first fault in the order of reading. The table stands in
/// docs/FORMATS.md under "Blocks".
#[derive(Clone, Copy, Debug, PartialEq, Eq)]
pub enum BlockFault {
    /// There are more than 65,536 bytes.
    TooLong,
    /// The bytes end within a field of the head or before it.
    Short,
    /// The version isn't 1.
    Version,
    /// The number of parents isn't one that the kind of block has.
    ParentCount,
    /// A parent's id isn't strictly above the one before it.
    ParentOrder,
    /// There are more than 256 transactions.
    TxCount,
    /// A transaction has this fault.
    Tx(TxFault),
    /// A transaction of genesis has an input, or one of another block has none.
    Grant,
    /// A transaction has the id of an earlier one.
    SameTx,
    /// A transaction has an outpoint in common with an earlier one.
    SameOutpoint,
    /// Bytes stand behind the last transaction.
    Trailing,
}

/// Why no block was made: the fault of the bytes, or want of memory.
pub type ReadBlockFault = ReadFault<BlockFault>;
