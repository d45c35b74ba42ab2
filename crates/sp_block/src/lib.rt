//! Blocks and their bytes: the format, reading, drafts, and proof of work.
//!
//! `specs/Format.antt` is the table of the format, a line for each field. From it stands what it
//! means that bytes spell a block, and what the first fault of bytes is; `read_block` answers by
//! these alone.
#![tactic(auto)]

mod block;
mod draft;
mod fault;
pub mod laws;
mod list;
mod read;
mod reader;
mod seen;

pub use block::{Block, check_work};
pub use draft::{Draft, draft_bytes, seek_nonce};
pub use fault::{BlockFault, ReadBlockFault};
pub use list::{Blocks, Parents};
pub use read::{read_block, read_block_with_ids};
