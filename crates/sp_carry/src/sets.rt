//! Sets of numbers, as lists.

ghost use Rattle.std.specs.Prelude.{◌≡◌, IfOk, OnOk};
ghost use Rattle.std.specs.BTreeSet.{keys, IsOrdered};
ghost use Rattle.std.specs.Ordering.{nat_cmp};

use std::alloc::{AllocError, Global};
use std::collections::BTreeSet;

/// The numbers of a set, ascending.
///
/// # Errors
///
/// `AllocError` where there was no memory for them.
pub fn ascending(alloc: Global, set: &BTreeSet<u32>) -> Result<Vec<u32>, AllocError>
    ensures keys { IfOk result (λ list. list.items ≡ keys set.now) }
    ensures ordered { OnOk result (IsOrdered nat_cmp set.now) }
{
    set.iter().copied().collect(alloc)
}
