//! The calls that a disk in memory records.

/// A recorded call. The bytes of the writes stand apart, one after another.
#[derive(Clone, Copy, Debug, PartialEq, Eq)]
pub enum Call {
    /// It changed nothing: a length, a read, a sync that failed, or a write without room.
    Asked,
    /// A write: its place, its number of bytes, and whether it was done.
    Wrote(usize, usize, bool),
    /// A sync that succeeded.
    Synced,
}
