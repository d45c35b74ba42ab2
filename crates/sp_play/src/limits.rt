//! How many names a scenario may have, and how many parts a transaction.

/// The most names, `G` included.
pub(crate) const MOST_NAMES: usize = 4096;

/// The most inputs and the most outputs of a transaction.
pub(crate) const MOST_PARTS: usize = 16;
