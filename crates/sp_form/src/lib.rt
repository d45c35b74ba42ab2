//! Formats of bytes, described once as data: fields one after another, each with its width and the
//! rules that it meets in the order in which they are judged.
//!
//! From such a description (`specs/Form.antt`) two things are defined: which lists of bytes spell a
//! value, and what the first fault of a list is. The laws of both are proved once for every format
//! (`laws`). Readers take their fields off a slice by `Fields`.
#![tactic(auto)]

mod array;
mod fault;
mod fields;
pub mod laws;

pub use array::array_of;
pub use fault::ReadFault;
pub use fields::Fields;
