//! Bytes by their fields: what the tests of formats and of feeds stand on.

use std::alloc::{AllocError, Global};

/// The fields, one after another.
pub fn flat(alloc: Global, fields: &[&[u8]]) -> Result<Vec<u8>, AllocError> {
    let mut bytes = Vec::new(alloc);
    for field in fields {
        bytes.extend_from_slice(field)?;
    }
    Ok(bytes)
}
