//! What a frame says.

use sp_ids::{BlockId, Lock, TxId};

/// A message of a feed. A block's bytes are lent from the reader's buffer, and may spell no block.
///
/// It is written as a frame: a letter (1 byte), the payload's length (4 bytes, the lowest first)
/// and the payload (docs/FORMATS.md, "Feeds").
///
/// | letter | length | payload | message |
/// |---|---|---|---|
/// | `B` | 0 to 65,537 | the bytes of a block | `Block` |
/// | `V` | 64 | two block ids, 32 bytes each | `Vote` |
/// | `T` | 32 | a transaction's id | `Tx` |
/// | `U` | 32 | a lock | `Balance` |
/// | `P` | 0 | | `Pairs` |
/// | `R` | 0 | | `Report` |
/// | `E` | 0 | | `End` |
#[derive(Clone, Copy, Debug, PartialEq, Eq)]
pub enum Message<'a> {
    /// The bytes of a block.
    Block(&'a [u8]),
    /// The order of two blocks is asked for, the first of them first.
    Vote(BlockId, BlockId),
    /// The state of a transaction is asked for.
    Tx(TxId),
    /// The balance under a lock is asked for.
    Balance(Lock),
    /// What is said of each pair of present blocks is asked for.
    Pairs,
    /// A report on all present blocks is asked for.
    Report,
    /// There are no more messages.
    End,
}
