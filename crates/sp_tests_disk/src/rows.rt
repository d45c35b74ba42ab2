//! How a table's row is judged. The tests call this, since an assertion that formats values is dear to
//! prove.

use std::process::Abort;

/// Ends the test where this doesn't hold of the row.
pub fn holds(rt: &impl Abort, row: usize, fact: bool) {
    assert!(rt; fact, "row {row}");
}
