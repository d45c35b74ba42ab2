//! Which blocks' carriers may turn where blocks joined the set: those of the new blocks, those of older
//! blocks that don't come before a new one with contested payments, and those of both blocks of each
//! pair on which the vote turned. They are a row of blocks, so that nothing is noted carrier by carrier.

ghost use Rattle.std.specs.Prelude.{◌≡◌, ◌<◌, ◌≤◌, ℕ, length, slice_get, Some, IsFalse, IsTrue};
ghost use Rattle.std.specs.List.{list_any};
ghost use Rattle.sp_model.specs.Graph.{has};
ghost use Rattle.sp_dag.specs.Numbered.{AreInOrder};
ghost use Rattle.sp_accept.specs.Changes.{carriers_below};
ghost use Rattle.sp_accept.specs.Rows.{row_at, AreOf};
ghost use Rattle.sp_accept.specs.Standing.{is_before, is_below};
ghost use Rattle.sp_accept.specs.Todo.{AreDue, is_contested, is_shared};

use crate::lookups::{carrier_at, spenders_of};
use crate::order::Order;
use sp_bits::Row;
use sp_carry::Carriers;
use sp_tx::Input;

/// Notes a block.
pub(crate) fn note(todo: &mut Row, block: u16)
    requires { block < 512 }
    ensures kept { (z : ℕ) → IsTrue (has todo.old z) → IsTrue (has todo.new z) }
    ensures there { IsTrue (has todo.new block) }
{
    // Tells the proof what a row is.
    let _there = todo.test(block);
    todo.set(block);
}

/// The blocks of the sound carriers from a number on.
fn new_blocks(carriers: &Carriers, from: u32) -> Row
    ensures { (c : ℕ) → from ≤ c → c < length carriers.now.rows →
        IsTrue (row_at carriers.now.rows c).sound → IsTrue (has result (row_at carriers.now.rows c).block) }
{
    // Tells the proof that there are at most 512 blocks.
    let _blocks = carriers.block_count();
    let mut news = Row::empty();
    'carriers: for c in from..carriers.carrier_count() {
        let row = carrier_at(carriers, c);
        if row.sound {
            note(&mut news, row.block);
        }
    }
    news
}

/// Whether more than one transaction spends what the input does.
fn is_shared(carriers: &Carriers, input: &Input) -> bool
    ensures { result ≡ is_shared carriers.now input.now }
{
    spenders_of(carriers, &input.from).len() > 1
}

/// Whether more than one transaction spends what one of the inputs does.
fn is_any_shared(carriers: &Carriers, inputs: &[Input]) -> bool
    ensures { result ≡ list_any (is_shared carriers.now) inputs.now }
{
    'inputs: for input in inputs {
        if is_shared(carriers, input) {
            return true;
        }
    }
    false
}

/// Whether another transaction spends what one of the inputs of this one does.
fn is_contested(carriers: &Carriers, tx: u32) -> bool
    requires { tx < length carriers.now.txs }
    ensures { result ≡ is_contested carriers.now tx }
{
    is_any_shared(carriers, carriers.tx(tx).inputs.as_slice())
}

/// The blocks of those of the sound carriers from a number on whose transactions are contested. Of a block
/// that has one no other is looked at.
fn contested_blocks(carriers: &Carriers, from: u32) -> Row
    ensures { (c : ℕ) → from ≤ c → c < length carriers.now.rows →
        IsTrue (row_at carriers.now.rows c).sound → IsTrue (is_contested carriers.now (row_at carriers.now.rows c).tx) →
        IsTrue (has result (row_at carriers.now.rows c).block) }
{
    // Tells the proof that there are at most 512 blocks.
    let _blocks = carriers.block_count();
    let mut blocks = Row::empty();
    'carriers: for c in from..carriers.carrier_count() {
        let row = carrier_at(carriers, c);
        if row.sound && !blocks.test(row.block) && is_contested(carriers, row.tx) {
            note(&mut blocks, row.block);
        }
    }
    blocks
}

/// Notes each of the first blocks that isn't below a later one and doesn't come before it.
fn note_beside<O: Order>(todo: &mut Row, order: &O, blocks: u16, new: u16)
    requires order { AreInOrder (O.table order.now).parents }
    requires few { length (O.table order.now).parents ≤ 512 }
    requires later { blocks ≤ new }
    requires within { new < length (O.table order.now).parents }
    ensures kept { (z : ℕ) → IsTrue (has todo.old z) → IsTrue (has todo.new z) }
    ensures beside { (z : ℕ) → z < blocks → IsFalse (is_below (O.table order.now) z new) →
        IsFalse (is_before (O.table order.now) z new) → IsTrue (has todo.new z) }
{
    'firsts: for z in 0..blocks {
        if !order.in_past(z, new) && !order.before(z, new) {
            note(todo, z);
        }
    }
}

/// Notes each of the first blocks that isn't below a later block of a row and doesn't come before it.
fn note_all_beside<O: Order>(todo: &mut Row, order: &O, news: &Row, blocks: u16, count: u16)
    requires order { AreInOrder (O.table order.now).parents }
    requires few { length (O.table order.now).parents ≤ 512 }
    requires count { count ≡ length (O.table order.now).parents }
    requires within { blocks ≤ count }
    ensures kept { (z : ℕ) → IsTrue (has todo.old z) → IsTrue (has todo.new z) }
    ensures beside { (z w : ℕ) → z < blocks → blocks ≤ w → w < count → IsTrue (has news.now w) →
        IsFalse (is_below (O.table order.now) z w) → IsFalse (is_before (O.table order.now) z w) →
        IsTrue (has todo.new z) }
{
    'laters: for w in blocks..count {
        if news.test(w) {
            note_beside(todo, order, blocks, w);
        }
    }
}

/// Notes both blocks of a pair, where they ascend and are among the first ones.
fn note_pair(todo: &mut Row, pair: (u16, u16), blocks: u16)
    requires { blocks ≤ 512 }
    ensures kept { (z : ℕ) → IsTrue (has todo.old z) → IsTrue (has todo.new z) }
    ensures both { pair.0 < pair.1 → pair.1 < blocks →
        IsTrue (has todo.new pair.0) × IsTrue (has todo.new pair.1) }
{
    if pair.0 < pair.1 && pair.1 < blocks {
        note(todo, pair.0);
        note(todo, pair.1);
    }
}

/// Notes both blocks of each pair that ascends and is among the first blocks.
fn note_pairs(todo: &mut Row, changed: &[(u16, u16)], blocks: u16)
    requires { blocks ≤ 512 }
    ensures kept { (z : ℕ) → IsTrue (has todo.old z) → IsTrue (has todo.new z) }
    ensures pairs { (i x y : ℕ) → slice_get changed.now i ≡ Some (x, y) → x < y → y < blocks →
        IsTrue (has todo.new x) × IsTrue (has todo.new y) }
{
    'pairs: for pair in changed {
        note_pair(todo, *pair, blocks);
    }
}

/// The blocks whose carriers may turn where all but the first blocks joined the set. `from` is the
/// number of the first of their carriers.
pub(crate) fn todo_of<O: Order>(
    order: &O,
    carriers: &Carriers,
    changed: &[(u16, u16)],
    blocks: u16,
    from: u32,
) -> Row
    requires of { AreOf (O.table order.now) carriers.now }
    requires blocks { blocks ≤ carriers.now.blocks }
    requires first { from ≡ carriers_below carriers.now.rows blocks }
    ensures { AreDue (O.table order.now) carriers.now blocks changed.now result }
{
    let count = carriers.block_count();
    let mut todo = new_blocks(carriers, from);
    let contested = contested_blocks(carriers, from);
    note_all_beside(&mut todo, order, &contested, blocks, count);
    note_pairs(&mut todo, changed, blocks);
    todo
}
