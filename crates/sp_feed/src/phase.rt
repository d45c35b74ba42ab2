//! Where a reader stands between two calls.

/// Nothing was asked yet; the head was read; a frame was read after it; or a call failed.
#[derive(Clone, Copy, Debug, PartialEq, Eq)]
pub(crate) enum Phase {
    Fresh,
    Ready,
    Holding,
    Closed,
}
