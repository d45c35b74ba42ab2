//! The lines of grants and transactions, and the parts of which lines are made.

ghost use Rattle.std.specs.Prelude.{◌≡◌, ◌++◌, OnOk};
ghost use Rattle.std.specs.Fmt.{decimal};
ghost use Rattle.sp_make.specs.Made as meant;

use std::alloc::AllocError;

/// Writes a number in decimal digits, without leading zeros.
pub(crate) fn put_number(out: &mut Vec<u8>, number: u64) -> Result<(), AllocError>
    ensures { OnOk result (out.new.items ≡ out.old.items ++ decimal number) }
{
    if number < 10 {
        out.push(b'0' + number as u8)?;
        return Ok(());
    }
    put_number(out, number / 10)?;
    out.push(b'0' + (number % 10) as u8)?;
    Ok(())
}

/// Writes the line of a grant.
#[tactic(auto, unfolding(crate::specs::Made::grant_line))]
pub(crate) fn put_grant(out: &mut Vec<u8>, k: u64) -> Result<(), AllocError>
    ensures { OnOk result (out.new.items ≡ out.old.items ++ meant.grant_line k) }
{
    out.extend_from_slice(b"grant g")?;
    put_number(out, k)?;
    out.extend_from_slice(b" 100 to a")?;
    put_number(out, k)?;
    out.push(b'\n')?;
    Ok(())
}

/// Writes the front of a transaction's line, up to the grant's name.
#[tactic(auto, unfolding(crate::specs::Made::tx_front))]
fn put_tx_front(out: &mut Vec<u8>, letter: u8, k: u64) -> Result<(), AllocError>
    ensures { OnOk result (out.new.items ≡ out.old.items ++ meant.tx_front letter k) }
{
    out.extend_from_slice(b"tx ")?;
    out.push(letter)?;
    put_number(out, k)?;
    out.extend_from_slice(b" spends g")?;
    put_number(out, k)
}

/// Writes the rest of a transaction's line.
#[tactic(auto, unfolding(crate::specs::Made::tx_back))]
fn put_tx_back(out: &mut Vec<u8>, word: u8, k: u64) -> Result<(), AllocError>
    ensures { OnOk result (out.new.items ≡ out.old.items ++ meant.tx_back word k) }
{
    out.extend_from_slice(b".0 pays 100 to ")?;
    out.push(word)?;
    put_number(out, k)?;
    out.push(b'\n')?;
    Ok(())
}

/// Writes the line of a transaction, by the letters of its name and of the word that it pays to.
pub(crate) fn put_tx(out: &mut Vec<u8>, letter: u8, word: u8, k: u64) -> Result<(), AllocError>
    ensures { OnOk result (out.new.items ≡ out.old.items ++ meant.tx_line letter word k) }
{
    put_tx_front(out, letter, k)?;
    put_tx_back(out, word, k)
}

/// Writes the name of a block.
#[tactic(auto, unfolding(crate::specs::Made::block_name))]
pub(crate) fn put_name(out: &mut Vec<u8>, number: u64) -> Result<(), AllocError>
    ensures { OnOk result (out.new.items ≡ out.old.items ++ meant.block_name number) }
{
    if number == 0 {
        out.push(b'G')?;
        return Ok(());
    }
    out.push(b'b')?;
    put_number(out, number)
}
