//! The payments of forty blocks: sixteen grants, eight families of payments that spend a grant twice
//! side by side, and a few more. A longer chain of blocks, the blocks 1 to 20, carries the one
//! payment of each family, and a shorter one, the blocks 21 to 37, the other. Block 38 joins the
//! chains, and 39 and 40 stand on it side by side.

use crate::tests::paired::id_at;
use crate::tests::text::Text;
use sp_ids::{Lock, TxId};
use std::alloc::Global;

/// How many transactions there are.
pub const TXS: u8 = 38;

/// A payment: what it spends, the amount that it pays, and the words that open locks, of a byte each.
#[derive(Clone, Copy)]
struct Payment {
    /// The number of the transaction whose output is spent, and the output's place there.
    from: u8,
    place: u8,
    /// What opens it.
    word: u8,
    amount: u8,
    /// What opens the lock that is paid.
    owner: u8,
    /// Its carrier, and another one, or the same.
    carriers: (u8, u8),
}

/// What is spent, the amount, the owner, and the carrier.
fn paying(spent: (u8, u8, u8), amount: u8, owner: u8, carrier: u8) -> Payment {
    Payment {
        from: spent.0,
        place: spent.1,
        word: spent.2,
        amount,
        owner,
        carriers: (carrier, carrier),
    }
}

/// The payments of eight families: a grant is spent twice side by side, and each of the two payments
/// is spent in the block behind. What is paid last has four locks.
fn family_payment(kind: u8, family: u8) -> Payment {
    let k = family % 8;
    match kind {
        0 => paying((0, k, k), 90 + k, 32 + k, 1 + 2 * k),
        1 => paying((0, k, k), 80 + k, 48 + k, 21 + 2 * k),
        2 => paying((1 + k, 0, 32 + k), 70 + k, 64 + k % 4, 2 + 2 * k),
        _ => paying((9 + k, 0, 48 + k), 60 + k, 64 + k % 4, 22 + 2 * k),
    }
}

/// The payments of the numbers 1 to 37: those of the families, all of one kind after another, and
/// then one that both chains carry; two in the block that joins the chains, of which the one spends
/// what the longer chain paid and the other what the shorter one did; and two in a tie.
fn payment_of(number: u8) -> Payment {
    match number {
        1..=32 => family_payment((number - 1) / 8, (number - 1) % 8),
        33 => Payment {
            carriers: (17, 37),
            ..paying((0, 8, 8), 50, 80, 17)
        },
        34 => paying((17, 0, 64), 140, 81, 38),
        35 => paying((26, 0, 65), 60, 82, 38),
        36 => paying((0, 9, 9), 109, 83, 39),
        _ => paying((0, 9, 9), 109, 84, 40),
    }
}

/// Genesis, what the longer chain paid and passed on, what both chains carry, and what spends two
/// outputs of the longer one.
pub fn is_accepted(number: u8) -> bool {
    matches!(number, 0..=8 | 17..=24 | 33 | 34)
}

/// What is left under the lock of a word. The grants are 100 to 115: the last six are never spent, and
/// the one before them in a tie alone. Under 64 to 67 lie the last payments of two families each, 70
/// to 77; of these 70 and 71 are spent.
pub fn balance_of(word: u8) -> u8 {
    match word {
        9..=15 => 100 + word,
        64 => 74,
        65 => 75,
        66 => 72 + 76,
        67 => 73 + 77,
        80 => 50,
        81 => 140,
        _ => 0,
    }
}

fn put_output(out: &mut Text, amount: u8, owner: u8) {
    out.put(&[amount, 0, 0, 0, 0, 0, 0, 0]);
    out.put(Lock::of(&[owner]).as_bytes());
}

/// The transaction of genesis: sixteen grants.
fn put_grants(out: &mut Text) {
    out.put(&[0, 16]);
    for place in 0..16u8 {
        put_output(out, 100 + place, place);
    }
}

fn put_input(out: &mut Text, txs: &[u8], (from, place, word): (u8, u8, u8)) {
    out.put(id_at(txs, from));
    out.put(&[place, 1, word]);
}

/// What a transaction spends, ascending by id. The one that spends two outputs has them of the first two
/// families.
fn put_inputs(out: &mut Text, txs: &[u8], number: u8, spent: (u8, u8, u8)) {
    if number == 34 {
        out.put(&[2]);
        put_input(out, txs, (18, 0, 65));
        put_input(out, txs, spent);
    } else {
        out.put(&[1]);
        put_input(out, txs, spent);
    }
}

/// The bytes of a transaction, by the ids of those before it.
fn put_tx(out: &mut Text, txs: &[u8], number: u8) {
    if number == 0 {
        put_grants(out);
    } else {
        let payment = payment_of(number);
        let spent = (payment.from, payment.place, payment.word);
        put_inputs(out, txs, number, spent);
        out.put(&[1]);
        put_output(out, payment.amount, payment.owner);
    }
}

fn tx_id_of(alloc: Global, txs: &[u8], number: u8) -> TxId {
    let mut tx = Text::new(alloc);
    put_tx(&mut tx, txs, number);
    TxId::of(tx.so_far())
}

/// The ids of all transactions, one behind another.
pub fn tx_ids(alloc: Global) -> Text {
    let mut txs = Text::new(alloc);
    for number in 0..TXS {
        let id = tx_id_of(alloc, txs.so_far(), number);
        txs.put(id.as_bytes());
    }
    txs
}

fn carries(block: u8, number: u8) -> bool {
    if number == 0 {
        return block == 0;
    }
    let (first, second) = payment_of(number).carriers;
    first == block || second == block
}

fn count_of(block: u8) -> u8 {
    let mut count = 0u8;
    for number in 0..TXS {
        if carries(block, number) {
            count = count.saturating_add(1);
        }
    }
    count
}

/// How many transactions a block carries, and these.
pub fn put_txs(out: &mut Text, txs: &[u8], block: u8) {
    out.put(&[count_of(block), 0]);
    for number in 0..TXS {
        if carries(block, number) {
            put_tx(out, txs, number);
        }
    }
}
