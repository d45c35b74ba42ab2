//! How a table's row is judged. The tests call these two, since an assertion that formats values is
//! dear to prove.

use std::process::Abort;

/// Ends the test where this doesn't hold of the row.
pub fn holds(rt: &impl Abort, row: usize, fact: bool) {
    assert!(rt; fact, "row {row}");
}

/// Ends the test where something is wrong with the row, which is named.
pub fn right(rt: &impl Abort, row: usize, wrong: &str) {
    assert!(rt; wrong.is_empty(), "row {row}: {wrong}");
}
