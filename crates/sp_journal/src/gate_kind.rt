//! The byte at place 0 of a disk that holds no journal.

/// What stands there: the gate over which a journal is created.
#[derive(Clone, Copy, Debug, PartialEq, Eq)]
pub enum Gate {
    /// Nothing: the disk is empty.
    Missing,
    /// A closed gate: any byte but 0xA5.
    Shut,
    /// An open one, 0xA5, and no head behind it.
    Set,
}
