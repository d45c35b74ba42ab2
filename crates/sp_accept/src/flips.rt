//! Which transactions' acceptance turned.

ghost use Rattle.std.specs.Prelude.{◌≡◌, ◌++◌, ◌∷◌, [], cond, IfOk, OnOk};
ghost use Rattle.sp_accept.specs.Flips.{differ, flips_of};

use crate::flags::differ;
use sp_carry::{Flip, is_set};
use std::alloc::{AllocError, Global};

/// Notes a transaction, where its new flag is another one.
pub(crate) fn note(flips: &mut Vec<Flip>, tx: u32, was: bool, now: bool) -> Result<(), AllocError>
    ensures { OnOk result (flips.new.items
        ≡ flips.old.items ++ cond (differ was now) (record { tx = tx; now = now } ∷ []) []) }
{
    if differ(was, now) {
        flips.push(Flip { tx, now })?;
    }
    Ok(())
}

/// Each of the first `count` transactions whose flag differs, ascending, with its new one.
pub(crate) fn flips_between(
    alloc: Global,
    old: &[bool],
    new: &[bool],
    count: u32,
) -> Result<Vec<Flip>, AllocError>
    ensures { IfOk result (λ flips. flips.items ≡ flips_of old.now new.now count) }
{
    let mut flips = Vec::new(alloc);
    'txs: for tx in 0..count {
        note(&mut flips, tx, is_set(old, tx), is_set(new, tx))?;
    }
    Ok(flips)
}
