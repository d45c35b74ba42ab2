//! The lines of the blocks.

ghost use Rattle.std.specs.Prelude.{◌≡◌, ◌++◌, ◌≤◌, OnOk};
ghost use Rattle.std.specs.List.{flat_map};
ghost use Rattle.sp_make.specs.Draws.{once_ascending};
ghost use Rattle.sp_make.specs.Made as meant;

use crate::draws::Drawn;
use crate::lines::{put_name, put_number};
use std::alloc::AllocError;

/// Writes a space and the name of a block.
fn put_spaced(out: &mut Vec<u8>, number: u64) -> Result<(), AllocError>
    ensures { OnOk result (out.new.items ≡ out.old.items ++ meant.spaced_name number) }
{
    out.push(b' ')?;
    put_name(out, number)
}

/// Writes the names of a block's parents, each behind a space.
fn put_parents(out: &mut Vec<u8>, first: u64, second: u64) -> Result<(), AllocError>
    ensures { OnOk result (out.new.items
        ≡ out.old.items ++ flat_map meant.spaced_name (once_ascending first second)) }
{
    if first == second {
        return put_spaced(out, first);
    }
    put_spaced(out, first.min(second))?;
    put_spaced(out, first.max(second))
}

/// Writes what a block carries.
#[tactic(auto, unfolding(crate::specs::Made::carried_text))]
fn put_carried(out: &mut Vec<u8>, n: u64, number: u64) -> Result<(), AllocError>
    requires { number ≤ 511 }
    ensures { OnOk result (out.new.items ≡ out.old.items ++ meant.carried_text n number) }
{
    let next = number + 1;
    if next % 8 == 0 && next / 8 <= n / 8 {
        out.extend_from_slice(b" carries p")?;
        put_number(out, next / 8)?;
    } else if number % 8 == 0 && number / 8 <= n / 8 {
        out.extend_from_slice(b" carries q")?;
        put_number(out, number / 8)?;
    }
    Ok(())
}

/// Writes the line of a block.
#[tactic(auto, unfolding(crate::specs::Made::block_line))]
pub(crate) fn put_block(
    out: &mut Vec<u8>,
    n: u64,
    number: u64,
    parents: Drawn,
) -> Result<(), AllocError>
    requires { number ≤ 511 }
    ensures { OnOk result (out.new.items ≡ out.old.items
        ++ meant.block_line number (once_ascending parents.first parents.second) (meant.carried_text n number)) }
{
    out.extend_from_slice(b"block ")?;
    put_name(out, number)?;
    out.extend_from_slice(b" on")?;
    put_parents(out, parents.first, parents.second)?;
    put_carried(out, n, number)?;
    out.push(b'\n')?;
    Ok(())
}
