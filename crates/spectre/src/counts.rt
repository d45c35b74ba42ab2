//! The numbers of a summary. They stand apart from the counting because the definitions cite them.

/// How often each word was said of a pair.
#[derive(Clone, Copy, Debug, PartialEq, Eq)]
pub struct Tally {
    /// The first block of the pair comes before the second.
    pub before: u32,
    /// It comes after the second.
    pub after: u32,
    /// As many votes are for the one order as for the other.
    pub tie: u32,
}

/// What there is of everything after a scenario was played.
#[derive(Clone, Copy, Debug, PartialEq, Eq)]
pub struct Counts {
    /// Present blocks, 512 at most.
    pub present: u16,
    /// Kept blocks that wait for an ancestor, 511 at most.
    pub waiting: u16,
    /// Pairs of different present blocks, 130,816 at most.
    pub pairs: u32,
    /// What the present blocks say of these pairs.
    pub tally: Tally,
    /// Accepted transactions.
    pub accepted: u32,
    /// Locks under which something is left.
    pub paid: u32,
}
