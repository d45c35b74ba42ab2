//! What the pool says of an id, and what it answers to a block. They stand apart because the
//! definitions cite them.

use sp_ids::Ids;

/// What the pool says of an id.
#[derive(Clone, Copy, Debug, PartialEq, Eq)]
pub enum Standing {
    /// A kept block has it.
    Known,
    /// No kept block has it, and 512 blocks are kept.
    Full,
    /// No kept block has it, and there is room.
    Fresh,
}

/// What the pool answers to a block that was offered.
#[derive(Drop)]
pub enum Offer {
    /// A block of its id is kept already. Nothing changed.
    Known,
    /// No block of its id is kept, and 512 blocks are. Nothing changed.
    Full,
    /// It is kept now, and isn't present: one of its ancestors isn't.
    Waiting,
    /// It is kept now, and present. These blocks became present, it among them, each of them the
    /// earliest kept block then whose parents were all present.
    Present(Ids),
}
