//! The whole text.

ghost use Rattle.std.specs.Prelude.{◌≡◌, ◌++◌, ◌≤◌, length, IfOk, OnOk};
ghost use Rattle.sp_make.specs.Made as meant;

use crate::blocks::put_block;
use crate::draws::draw_parents;
use crate::lines::{put_grant, put_tx};
use sp_ids::Memory;
use std::alloc::{AllocError, Global};

/// Writes the lines of so many grants.
fn put_grants(out: &mut Vec<u8>, count: u64) -> Result<(), AllocError>
    requires { count ≤ 63 }
    ensures { OnOk result (out.new.items ≡ out.old.items ++ meant.lines_to count meant.grant_line) }
{
    for k in 0..count {
        put_grant(out, k + 1)?;
    }
    Ok(())
}

/// Writes the lines of the two transactions on each of so many grants.
fn put_txs(out: &mut Vec<u8>, count: u64) -> Result<(), AllocError>
    requires { count ≤ 63 }
    ensures { OnOk result (out.new.items ≡ out.old.items ++ meant.lines_to count meant.tx_lines) }
{
    for k in 0..count {
        put_tx(out, b'p', b'x', k + 1)?;
        put_tx(out, b'q', b'y', k + 1)?;
    }
    Ok(())
}

/// Writes the lines of the blocks.
fn put_blocks(out: &mut Vec<u8>, n: u64, seed: u64, width: u64) -> Result<(), AllocError>
    requires few { n ≤ 511 }
    requires wide { 1 ≤ width }
    ensures { OnOk result (out.new.items
        ≡ out.old.items ++ meant.lines_to n (meant.line_of_block n seed width)) }
{
    let mut state = seed;
    for done in 0..n {
        let parents = draw_parents(done + 1, width, state);
        put_block(out, n, done + 1, parents)?;
        state = parents.state;
    }
    Ok(())
}

/// The text of a scenario of `n` blocks beside genesis, 0 to 511, each with one or two parents that
/// are drawn by a `seed` from the `width` blocks before it, 1 to 16. Each eight blocks carry two
/// transactions that spend one grant. Whatever the seed, the text is far shorter than the reader's
/// limit. The time is that of writing it. docs/FORMATS.md has the rules.
///
/// # Errors
///
/// `Memory` where the text found none.
pub fn make(alloc: Global, n: u16, seed: u64, width: u8) -> Result<Vec<u8>, Memory>
    requires few { n ≤ 511 }
    requires some { 1 ≤ width }
    requires narrow { width ≤ 16 }
    ensures text { IfOk result (λ text. text.items ≡ meant.made n seed width) }
    ensures short { IfOk result (λ text. length text.items ≤ 131072) }
{
    let count = u64::from(n);
    let mut text = Vec::new(alloc);
    put_grants(&mut text, count / 8)?;
    put_txs(&mut text, count / 8)?;
    put_blocks(&mut text, count, seed, u64::from(width))?;
    Ok(text)
}
