//! Which two transactions conflict: those that spend one output and are not the same.

use crate::tx::{Spend, Spent, made};
use sp_tx::{Tx, conflicts, id};
use std::alloc::Global;
use std::test::Fail;

/// Inputs, and the amount of one output.
type Side = (&'static [Spend], u64);

/// Two transactions, and whether they conflict.
type Pair = (Side, Side, bool);

#[rattlefmt::skip]
const PAIRS: &[Pair] = &[
    ((&[(Spent::Low, 1, b"a")], 1), (&[(Spent::Low, 1, b"a")], 1), false),
    ((&[(Spent::Low, 1, b"a")], 1), (&[(Spent::Low, 1, b"a")], 2), true),
    ((&[(Spent::Low, 1, b"a")], 1), (&[(Spent::Low, 1, b"b")], 1), true),
    ((&[(Spent::Low, 1, b"a")], 1), (&[(Spent::Low, 2, b"a")], 1), false),
    ((&[(Spent::Low, 1, b"a")], 1), (&[(Spent::High, 1, b"a")], 1), false),
    ((&[(Spent::Low, 1, b"a"), (Spent::High, 1, b"a")], 1), (&[(Spent::Low, 2, b"a"), (Spent::High, 1, b"a")], 1), true),
    ((&[], 1), (&[], 2), false),
];

fn are_conflicting(alloc: Global, a: &Tx, b: &Tx) -> Result<bool, Fail> {
    Ok(conflicts(a, &id(alloc, a)?, b, &id(alloc, b)?))
}

fn conflicts_with(alloc: Global, a: &Tx, other: Side) -> Result<bool, Fail> {
    let b = made(alloc, other.0, &[other.1])?;
    let answer = are_conflicting(alloc, a, &b);
    drop(b);
    answer
}

fn conflict(alloc: Global, one: Side, other: Side) -> Result<bool, Fail> {
    let a = made(alloc, one.0, &[one.1])?;
    let answer = conflicts_with(alloc, &a, other);
    drop(a);
    answer
}

/// The first of the rows that isn't so.
fn mispaired(alloc: Global, rows: &[Pair]) -> Result<Option<usize>, Fail> {
    for (place, (one, other, answer)) in rows.iter().enumerate() {
        if conflict(alloc, *one, *other)? != *answer {
            return Ok(Some(place));
        }
    }
    Ok(None)
}

#[test]
fn pairs(rt: HostRuntime) -> Result<(), Fail> {
    assert_eq!(rt; mispaired(rt.alloc(), PAIRS)?, None);
    Ok(())
}
