//! The room of a pool: what is reserved, taken and given, and what a refusal leaves.

use crate::row_list::{Plain, compare, take, take_words};
use sp_rows::RowPool;
use std::process::Abort;
use std::test::Fail;

#[test]
fn a_row_that_was_given_is_taken_with_zeros(rt: HostRuntime) -> Result<(), Fail> {
    let mut pool = RowPool::new(rt.alloc());
    pool.reserve(1).ok().ok_or("memory")?;
    let first = take(&rt, &mut pool, 3);
    compare(&rt, &pool, &[first], 0);
    assert!(rt; pool.is_live(first.id));
    pool.give(first.id);
    compare(&rt, &pool, &[], 1);
    let second = take(&rt, &mut pool, 0);
    compare(&rt, &pool, &[second], 0);
    assert_eq!(rt; second.id.0, first.id.0);
    Ok(())
}

/// The words with which a row is taken, one time after the other. Each time it still has those of the
/// time before.
const WORDS: &[[u64; 8]] = &[
    [u64::MAX; 8],
    [0; 8],
    [u64::MAX; 8],
    [1, 2, 3, 4, 5, 6, 7, 8],
    [0, 0, 0, 0, 0, 0, 0, 1 << 63],
];

#[test]
fn a_row_that_was_given_is_taken_with_other_words(rt: HostRuntime) -> Result<(), Fail> {
    let mut pool = RowPool::new(rt.alloc());
    pool.reserve(3).ok().ok_or("memory")?;
    let below = take(&rt, &mut pool, 1);
    let mut row = take(&rt, &mut pool, 2);
    let above = take(&rt, &mut pool, 3);
    for words in WORDS {
        assert!(rt; pool.is_live(row.id));
        pool.give(row.id);
        let next = take_words(&rt, &mut pool, *words);
        assert_eq!(rt; next.id.0, row.id.0);
        row = next;
        compare(&rt, &pool, &[below, row, above], 0);
    }
    Ok(())
}

/// How many rows are taken, given back in another order, and taken again.
const MANY: u32 = 300;

#[test]
fn rows_that_were_given_are_taken_by_number(rt: HostRuntime) -> Result<(), Fail> {
    let mut pool = RowPool::new(rt.alloc());
    let mut rows = Vec::new(rt.alloc());
    pool.reserve(MANY).ok().ok_or("memory")?;
    for number in 0..MANY {
        let row = take(&rt, &mut pool, number);
        assert_eq!(rt; row.id.0, number);
        rows.push(row.id)?;
    }
    for step in 0..MANY {
        let id = *rows.get(step as usize * 7 % MANY as usize).ok_or("row")?;
        assert!(rt; pool.is_live(id));
        pool.give(id);
    }
    compare(&rt, &pool, &[], MANY as usize);
    assert!(rt; pool.live() == 0);
    pool.reserve(MANY).ok().ok_or("memory")?;
    for number in 0..MANY {
        let row = take(&rt, &mut pool, number);
        assert_eq!(rt; row.id.0, number);
    }
    Ok(())
}

/// Of ten rows these are given back, and taken again behind all that were never taken.
const GIVEN: &[u32] = &[5, 3];

const TAKEN: &[u32] = &[10, 11, 12, 13, 3, 5];

#[test]
fn rows_that_were_given_are_taken_where_no_other_is_left(rt: HostRuntime) -> Result<(), Fail> {
    let mut pool = RowPool::new(rt.alloc());
    let mut rows = Vec::new(rt.alloc());
    pool.reserve(14).ok().ok_or("memory")?;
    for number in 0..10 {
        let row = take(&rt, &mut pool, number);
        assert_eq!(rt; row.id.0, number);
        rows.push(row.id)?;
    }
    for number in GIVEN {
        let id = *rows.get(*number as usize).ok_or("row")?;
        assert!(rt; pool.is_live(id));
        pool.give(id);
    }
    for number in TAKEN {
        let row = take(&rt, &mut pool, *number);
        assert_eq!(rt; row.id.0, *number);
    }
    assert!(rt; pool.spare() == 0);
    Ok(())
}

/// How many rows are asked for, one after the other, and how many can be taken then.
const ROOM: &[(u32, usize)] = &[
    (0, 0),
    (1, 1),
    (1, 1),
    (0, 1),
    (255, 255),
    (256, 256),
    (257, 257),
    (100, 257),
    (1_000, 1_000),
];

#[test]
fn room_for_as_many_as_are_asked_for(rt: HostRuntime) -> Result<(), Fail> {
    let mut pool = RowPool::new(rt.alloc());
    for (asked, spare) in ROOM {
        assert!(rt; pool.live() == 0 && *asked <= 1_000);
        pool.reserve(*asked).ok().ok_or("memory")?;
        compare(&rt, &pool, &[], *spare);
    }
    Ok(())
}

/// Asks for more than two chunks of rows. A refusal leaves the pool as it was.
fn reserve_more(rt: &impl Abort, pool: &mut RowPool, rows: &[Plain]) {
    let spare = pool.spare();
    assert!(rt; pool.live() <= 10);
    let room = if pool.reserve(600).is_ok() {
        600
    } else {
        spare
    };
    compare(rt, pool, rows, room);
}

#[test]
fn rows_stay_whether_room_is_refused_or_not(rt: HostRuntime) -> Result<(), Fail> {
    let mut pool = RowPool::new(rt.alloc());
    reserve_more(&rt, &mut pool, &[]);
    assert!(rt; pool.live() == 0);
    pool.reserve(7).ok().ok_or("memory")?;
    let rows = [
        take(&rt, &mut pool, 1),
        take(&rt, &mut pool, 2),
        take(&rt, &mut pool, 11),
    ];
    reserve_more(&rt, &mut pool, &rows);
    Ok(())
}
