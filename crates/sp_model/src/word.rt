//! The answer to a question on two blocks, apart from the laws since the program's crates hold it
//! as a value.

/// What the blocks of a set say of two blocks, the first and the second one asked for.
#[derive(Clone, Copy, Debug, PartialEq, Eq)]
pub enum Word {
    /// The first one comes before the second.
    Before,
    /// The first one comes after the second.
    After,
    /// The votes for both orders are equal in number.
    Tie,
    /// The two are one block.
    Same,
    /// One of the two isn't in the set.
    Absent,
}
