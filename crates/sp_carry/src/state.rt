//! The answer to a question on a transaction, apart from the laws since the crates above hold it as
//! a value.

/// What the blocks of a set say of a transaction's id.
#[derive(Clone, Copy, Debug, PartialEq, Eq)]
pub enum TxState {
    /// A block carries it, and one of its carriers is accepted.
    Accepted,
    /// Blocks carry it, and none of its carriers is accepted.
    Rejected,
    /// No block carries it.
    Absent,
}
