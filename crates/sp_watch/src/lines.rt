//! The lines of changes and of values that stand, each put together whole.

ghost use Rattle.std.specs.Prelude.{◌≡◌, ◌≤◌, ◌+◌, ◌++◌, length};
ghost use Rattle.sp_report.specs.Naming as label_of;
ghost use Rattle.std.specs.Fmt.{decimal};
ghost use Rattle.sp_watch.specs.Lines as meant;
ghost use Rattle.sp_watch.specs.Values.{IsOfKind};
ghost use Rattle.sp_watch.specs.declared.item.Item.TheVariants as item_is;
ghost use Rattle.sp_watch.specs.declared.item.Value.TheVariants as value_is;

use crate::item::{Change, Item, Value};
use sp_carry::TxState;
use sp_ids::{BlockId, Lock, TxId};
use sp_model::Word;
use sp_report::{Line, Naming, block_label, lock_label, state_text, tx_label, word_text};

// Writes the digits of a transaction's id.
fn push_tx(line: &mut Line, id: &TxId)
    requires { length line.old ≤ 128 }
    ensures text { line.new ≡ line.old ++ label_of.hex_label id.now }
    ensures size { length line.new ≤ length line.old + 64 }
{
    line.push_bytes(tx_label(&Naming::Hex, id).as_slice());
}

// Writes the digits of a lock.
fn push_lock(line: &mut Line, lock: &Lock)
    requires { length line.old ≤ 128 }
    ensures text { line.new ≡ line.old ++ label_of.hex_label lock.now }
    ensures size { length line.new ≤ length line.old + 64 }
{
    line.push_bytes(lock_label(&Naming::Hex, lock).as_slice());
}

// Writes the digits of a block's id.
fn push_block(line: &mut Line, id: &BlockId)
    requires { length line.old ≤ 128 }
    ensures text { line.new ≡ line.old ++ label_of.hex_label id.now }
    ensures size { length line.new ≤ length line.old + 64 }
{
    line.push_bytes(block_label(&Naming::Hex, id).as_slice());
}

// Writes the words for an item; they are 67, 72 or 134 bytes.
fn push_item(line: &mut Line, item: &Item)
    requires { length line.old ≤ 5 }
    ensures text { line.new ≡ line.old ++ meant.item_text item.now }
    ensures size { length line.new ≤ length line.old + 134 }
{
    match item {
        Item::Tx(id) => {
            line.push_bytes(b"tx ");
            push_tx(line, id);
        }
        Item::Balance(lock) => {
            line.push_bytes(b"balance ");
            push_lock(line, lock);
        }
        Item::Vote(x, y) => {
            line.push_bytes(b"vote ");
            push_block(line, x);
            line.push_byte(b' ');
            push_block(line, y);
        }
    }
}

// Writes a count in decimal digits. There are ten of them at most.
#[tactic(auto, using(crate::proofs::Digits::size_of_32))]
fn push_count(line: &mut Line, count: u32)
    requires { length line.old ≤ 172 }
    ensures text { line.new ≡ line.old ++ decimal count }
    ensures size { length line.new ≤ length line.old + 10 }
{
    line.push_number(u64::from(count));
}

// The line of a transaction whose state changed.
fn state_change(id: &TxId, from: TxState, to: TxState) -> Line
    ensures { result ≡ meant.change_text (item_is.Tx id.now) (value_is.State from) (value_is.State to) }
{
    let mut line = Line::new();
    line.push_bytes(b"tx ");
    push_tx(&mut line, id);
    line.push_bytes(b" from ");
    line.push_bytes(state_text(from));
    line.push_bytes(b" to ");
    line.push_bytes(state_text(to));
    line.push_byte(b'\n');
    line
}

// The line of a lock under which something else is left.
fn amount_change(lock: &Lock, from: u128, to: u128) -> Line
    ensures { result ≡ meant.change_text (item_is.Balance lock.now) (value_is.Amount from) (value_is.Amount to) }
{
    let mut line = Line::new();
    line.push_bytes(b"balance ");
    push_lock(&mut line, lock);
    line.push_bytes(b" from ");
    line.push_wide_number(from);
    line.push_bytes(b" to ");
    line.push_wide_number(to);
    line.push_byte(b'\n');
    line
}

// The line of two blocks of which something else is said.
fn word_change(x: &BlockId, y: &BlockId, from: Word, to: Word) -> Line
    ensures { result ≡ meant.change_text (item_is.Vote x.now y.now) (value_is.Word from) (value_is.Word to) }
{
    let mut line = Line::new();
    line.push_bytes(b"vote ");
    push_block(&mut line, x);
    line.push_byte(b' ');
    push_block(&mut line, y);
    line.push_bytes(b" from ");
    line.push_bytes(word_text(from));
    line.push_bytes(b" to ");
    line.push_bytes(word_text(to));
    line.push_byte(b'\n');
    line
}

/// The line of an item whose value changed.
pub(crate) fn change_line(item: &Item, change: &Change) -> Line
    requires from { IsOfKind item.now change.now.from }
    requires to { IsOfKind item.now change.now.to }
    ensures { result ≡ meant.change_text item.now change.now.from change.now.to }
{
    match (item, change.from, change.to) {
        (Item::Tx(id), Value::State(from), Value::State(to)) => state_change(id, from, to),
        (Item::Balance(lock), Value::Amount(from), Value::Amount(to)) => {
            amount_change(lock, from, to)
        }
        (Item::Vote(x, y), Value::Word(from), Value::Word(to)) => word_change(x, y, from, to),
        // The values are of the item's kind.
        _ => unreachable!(),
    }
}

/// The line of an item whose value stands since an arrival.
pub(crate) fn held_line(item: &Item, since: u32, changes: u32) -> Line
    ensures { result ≡ meant.held_text item.now since changes }
{
    let mut line = Line::new();
    line.push_bytes(b"held ");
    push_item(&mut line, item);
    line.push_bytes(b" since ");
    push_count(&mut line, since);
    line.push_bytes(b" changes ");
    push_count(&mut line, changes);
    line.push_byte(b'\n');
    line
}
