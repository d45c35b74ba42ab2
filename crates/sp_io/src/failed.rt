//! The one error of a source and of a sink. It says no more, because its cause is in the count
//! of faults.

/// A call to the outside failed: the source or sink counted a fault in it.
#[derive(Clone, Copy, Debug, PartialEq, Eq)]
pub struct Failed;
