//! What is asked of the engine. It stands apart from the lines because the definitions cite it.

use sp_ids::{BlockId, Lock, TxId};

/// What is asked of the present blocks.
#[derive(Clone, Copy, Debug, PartialEq, Eq)]
pub enum Ask {
    /// The order of two blocks, the first of them first.
    Vote(BlockId, BlockId),
    /// The state of a transaction.
    Tx(TxId),
    /// What the accepted transactions leave under a lock.
    Balance(Lock),
}
