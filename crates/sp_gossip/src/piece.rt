//! What a packet brings of a block. It stands apart because the definitions cite it.

use sp_ids::BlockId;
use sp_tx::Bytes;

/// What a packet brings of a block.
#[derive(Drop)]
pub(crate) enum Piece {
    /// Its id alone, where the receiver keeps a block of this id, and no rule refuses the bytes: so they
    /// needn't be read.
    Known(BlockId),
    /// Its bytes.
    New(Bytes),
}
