//! What becomes of bytes that arrive. It stands apart because the definitions cite it.

use sp_block::BlockFault;
use sp_ids::BlockId;

/// Why bytes are refused.
#[derive(Clone, Copy, Debug, PartialEq, Eq)]
pub enum Refusal {
    /// They spell no block; this is their first fault.
    Spelling(BlockFault),
    /// They spell a block whose id misses the work.
    Work,
}

/// What becomes of bytes that arrive.
#[derive(Clone, Copy, Debug, PartialEq, Eq)]
pub enum Answer {
    /// The block is kept now and present, and so many blocks became present, itself among them.
    Kept { id: BlockId, present: u16 },
    /// The block is kept now and waits for an ancestor.
    Held { id: BlockId },
    /// A block of this id was kept before. Nothing changed.
    Known { id: BlockId },
    /// The bytes are no valid block. Nothing changed.
    Refused(Refusal),
    /// No block of its id is kept, and 512 blocks are. Nothing changed.
    Full,
}
