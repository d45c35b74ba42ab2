//! A pool of counted rows of eight words. Rows lie in chunks of raw memory that never move, so that
//! many views can share them. The views of present blocks stand on it.
#![tactic(auto)]

mod chunk;
mod chunks;
mod free;
mod pool;
mod raw;

// A crate can name a pool in a contract only if the types of its fields are exported.
#[doc(hidden)]
pub use chunk::Chunk;
#[doc(hidden)]
pub use chunks::Chunks;
#[doc(hidden)]
pub use free::Free;
pub use pool::{RowId, RowPool};
#[doc(hidden)]
pub use raw::{Owned, Start};
