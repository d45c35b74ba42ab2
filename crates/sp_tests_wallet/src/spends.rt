//! What is paid with which outputs, or why nothing is.

use crate::played::{SIDE_BY_SIDE, SIDE_BY_SIDE_2, played};
use sp_engine::Engine;
use sp_ids::Lock;
use sp_tx::{Tx, read_tx, write_tx};
use sp_wallet::{Preimages, SpendFault, spend};
use std::alloc::Global;
use std::process::Abort;
use std::test::Fail;

const TWO_GRANTS: &[u8] = b"grant g 100 to alice\ngrant h 50 to alice\nblock A on G";

const LARGE_GRANTS: &[u8] =
    b"grant g 9223372036854775806 to alice\ngrant h 9223372036854775805 to alice";

const SPENT: &[u8] =
    b"grant g 100 to alice\ngrant h 50 to bob\ntx p spends g.0 pays 40 to bob 60 to alice\nblock A on G carries p";

const MANY: &[u8] =
    b"grant a 3 to w 3 to w 3 to w 3 to w 3 to w 3 to w 3 to w 3 to w 3 to w 3 to w\ngrant b 3 to w 3 to w 3 to w 3 to w 3 to w 3 to w 9 to w 1 to w 1 to w 1 to w";

/// Their sum is 2^63 - 1, which a transaction may pay.
const EDGE_GRANTS: &[u8] = b"grant g 9223372036854775806 to alice\ngrant h 1 to alice";

/// Theirs is 2^63, which it may not.
const OVER_GRANTS: &[u8] = b"grant g 9223372036854775806 to alice\ngrant h 2 to alice";

/// Two grants of unequal lengths, as equal ones would be one transaction.
const DUST: &[u8] =
    b"grant a 1 to w 1 to w 1 to w 1 to w 1 to w 1 to w 1 to w 1 to w 1 to w 1 to w 1 to w\ngrant b 1 to w 1 to w 1 to w 1 to w 1 to w 1 to w 1 to w 1 to w 1 to w";

const TWO_GRANTS_2: &[u8] = b"profile 2\ngrant g 100 to alice\ngrant h 50 to alice\nblock A on G";

/// How many bytes the transaction has, how many inputs, and the amounts that it pays; or the fault.
type Told = Result<(usize, usize, &'static [u64]), SpendFault>;

/// A scenario, the words, the amount, and what is answered.
type Row = (&'static [u8], &'static [&'static [u8]], u64, Told);

#[rattlefmt::skip]
const ROWS: &[Row] = &[
    (TWO_GRANTS, &[b"alice"], 100, Ok((81, 1, &[100]))),
    (TWO_GRANTS, &[b"alice"], 120, Ok((160, 2, &[120, 30]))),
    (TWO_GRANTS, &[b"alice"], 150, Ok((120, 2, &[150]))),
    (TWO_GRANTS, &[b"alice"], 151, Err(SpendFault::Poor { reach: 150 })),
    (TWO_GRANTS, &[b"carol"], 1, Err(SpendFault::Poor { reach: 0 })),
    (LARGE_GRANTS, &[b"alice"], 9223372036854775807, Err(SpendFault::Large { total: 18446744073709551611 })),
    // Alice's grant is spent; the rest of it and what Bob has are left.
    (SPENT, &[b"alice", b"bob"], 110, Ok((118, 2, &[110]))),
    (SPENT, &[b"bob", b"alice"], 150, Ok((155, 3, &[150]))),
    // The 9 and fifteen of the threes are the most that 16 inputs bring.
    (MANY, &[b"w"], 54, Ok((602, 16, &[54]))),
    (MANY, &[b"w"], 55, Err(SpendFault::Poor { reach: 54 })),
    (MANY, &[b"w"], 10, Ok((152, 2, &[10, 2]))),
    (EDGE_GRANTS, &[b"alice"], 9223372036854775807, Ok((120, 2, &[9223372036854775807]))),
    (EDGE_GRANTS, &[b"alice"], 9223372036854775806, Ok((81, 1, &[9223372036854775806]))),
    (OVER_GRANTS, &[b"alice"], 9223372036854775807, Err(SpendFault::Large { total: 9223372036854775808 })),
    (DUST, &[b"w"], 16, Ok((602, 16, &[16]))),
    (DUST, &[b"w"], 17, Err(SpendFault::Poor { reach: 16 })),
    (TWO_GRANTS_2, &[b"alice"], 120, Ok((160, 2, &[120, 30]))),
    (TWO_GRANTS_2, &[b"alice"], 151, Err(SpendFault::Poor { reach: 150 })),
    (SIDE_BY_SIDE, &[b"alice"], 100, Ok((81, 1, &[100]))),
    (SIDE_BY_SIDE, &[b"bob", b"carol"], 1, Err(SpendFault::Poor { reach: 0 })),
    (SIDE_BY_SIDE_2, &[b"alice"], 1, Err(SpendFault::Poor { reach: 0 })),
    (SIDE_BY_SIDE_2, &[b"carol", b"bob"], 100, Ok((79, 1, &[100]))),
];

fn words_of(alloc: Global, words: &[&[u8]]) -> Result<Preimages, Fail> {
    let mut all = Preimages::new(alloc);
    for word in words {
        if all.len() >= 16 || word.is_empty() || word.len() > 64 {
            return Err("no word".into());
        }
        all.push(word)?;
    }
    Ok(all)
}

fn spent(
    alloc: Global,
    engine: &Engine,
    words: &Preimages,
    amount: u64,
) -> Result<Result<Tx, SpendFault>, Fail> {
    if words.len() == 0 || amount == 0 || amount >= 1 << 63 {
        return Err("no spend".into());
    }
    Ok(spend(alloc, engine, words, amount, Lock::of(b"bob")))
}

fn spent_in(
    alloc: Global,
    text: &[u8],
    words: &[&[u8]],
    amount: u64,
) -> Result<Result<Tx, SpendFault>, Fail> {
    let words = words_of(alloc, words)?;
    let engine = played(alloc, text)?;
    let answer = spent(alloc, &engine, &words, amount);
    drop(engine);
    answer
}

fn are_amounts(tx: &Tx, amounts: &[u64]) -> bool {
    let outputs = tx.outputs.as_slice();
    outputs.len() == amounts.len()
        && outputs
            .iter()
            .zip(amounts)
            .all(|(output, amount)| output.amount == *amount)
}

// Its bytes are so many, and are read to their end as a transaction.
fn is_read(alloc: Global, tx: &Tx, length: usize) -> Result<bool, Fail> {
    let mut bytes = Vec::new(alloc);
    write_tx(tx, &mut bytes)?;
    let (read, end) = read_tx(alloc, &bytes, 0)?;
    drop(read);
    Ok(bytes.len() == length && end == length)
}

fn is_told(alloc: Global, answer: &Result<Tx, SpendFault>, told: &Told) -> Result<bool, Fail> {
    match (answer, told) {
        (Ok(tx), Ok((length, inputs, amounts))) => {
            Ok(
                tx.inputs.as_slice().len() == *inputs
                    && are_amounts(tx, amounts)
                    && is_read(alloc, tx, *length)?,
            )
        }
        (Err(fault), Err(wanted)) => Ok(*fault == *wanted),
        _ => Ok(false),
    }
}

fn is_right(alloc: Global, row: &Row) -> Result<bool, Fail> {
    let (text, words, amount, told) = row;
    let answer = spent_in(alloc, text, words, *amount)?;
    is_told(alloc, &answer, told)
}

fn holds(rt: &impl Abort, row: usize, fact: bool) {
    assert!(rt; fact, "row {row}");
}

#[test]
fn spends_of_scenarios(rt: HostRuntime) -> Result<(), Fail> {
    for (number, row) in ROWS.iter().enumerate() {
        let right = is_right(rt.alloc(), row)?;
        holds(&rt, number, right);
    }
    Ok(())
}
