//! 900 calls over rows of three chunks, after each of which the pool is compared with a plain list.

use crate::row_list::{Plain, compare, give, share, take};
use sp_rows::RowPool;
use std::process::Abort;
use std::test::Fail;

/// How many rows are reserved, which lie in four chunks, and how many calls are made. At the end 560 rows are live, in
/// the first three of these.
const CALLS: u32 = 900;

#[derive(Clone, Copy, Debug, PartialEq, Eq)]
enum Call {
    Take,
    Share,
    Give,
}

/// The calls at first take rows more often than they give them, so that all chunks come to have live
/// rows, and then the other way round.
fn call_at(number: u32) -> Call {
    match number % 10 {
        2 => Call::Share,
        5 => Call::Give,
        7 if number > 800 => Call::Give,
        _ if number > 860 => Call::Give,
        _ => Call::Take,
    }
}

/// Makes a call of the pool and of the list.
fn make(
    rt: &impl Abort,
    pool: &mut RowPool,
    rows: &mut Vec<Plain>,
    number: u32,
) -> Result<(), Fail> {
    let len = rows.len();
    if len == 0 || call_at(number) == Call::Take {
        let row = take(rt, pool, number);
        rows.push(row)?;
        return Ok(());
    }
    let at = number as usize / 2 % len;
    if call_at(number) == Call::Share {
        share(rt, pool, &mut rows[at]);
    } else {
        give(rt, pool, &mut rows[at]);
        if rows[at].count == 0 {
            let gone = rows.remove(at);
            assert!(rt; !pool.is_live(gone.id));
        }
    }
    Ok(())
}

#[test]
fn nine_hundred_calls(rt: HostRuntime) -> Result<(), Fail> {
    let alloc = rt.alloc();
    let mut pool = RowPool::new(alloc);
    pool.reserve(CALLS).ok().ok_or("memory")?;
    let mut rows = Vec::new(alloc);
    for number in 0..CALLS {
        make(&rt, &mut pool, &mut rows, number)?;
        let spare = (CALLS as usize).saturating_sub(rows.len());
        compare(&rt, &pool, rows.as_slice(), spare);
    }
    for first in [0, 256, 512] {
        assert!(rt;
            rows.iter().any(|row| row.id.0 / 256 * 256 == first),
            "chunk at {first}"
        );
    }
    Ok(())
}
