//! Names that a stranger chose so that a table by the library's hasher finds them all in one crowd: a
//! scenario with them costs no more than one with others.

use crate::rows::holds;
use crate::scenes::judging::read;
use std::alloc::Global;
use std::collections::HashMap;
use std::hash::{BuildHasher, BuildHasherDefault, FoldHasher};
use std::process::Abort;
use std::rt::Clock;
use std::test::Fail;
use std::time::{Duration, Instant};

/// As many names as a scenario may have beside that of the genesis block.
const COUNT: usize = 4_095;

/// The bytes of a name.
const LENGTH: usize = 8;

/// A table of the library that holds them has 1,024 groups of places. It begins at the group that the
/// hash says, and goes on to the next one where a group is full.
const GROUPS: u64 = 1_024;

/// The groups at which it begins for a crowd. They are full soon, and then each look-up goes past the
/// groups behind them that are full, too.
const CROWD: u64 = 8;

/// A name for each number: eight letters from `a` to `p`.
fn name(number: u32) -> [u8; LENGTH] {
    let mut name = [b'a'; LENGTH];
    let mut rest = number;
    for letter in &mut name {
        *letter = b'a' + (rest % 16) as u8;
        rest /= 16;
    }
    name
}

/// The group at which a table begins.
fn group(name: &[u8]) -> u64 {
    let hash = BuildHasherDefault::<FoldHasher>::new().hash_one(name);
    (hash ^ hash >> 32) % GROUPS
}

/// The first names that begin at one of so many groups.
fn names(alloc: Global, groups: u64) -> Result<Vec<[u8; LENGTH]>, Fail> {
    let mut names = Vec::new(alloc);
    for number in 0..4_000_000u32 {
        if names.len() == COUNT {
            break;
        }
        let new = name(number);
        if group(&new) < groups {
            names.push(new)?;
        }
    }
    Ok(names)
}

/// A line that makes each block, and 16 questions on each of them.
fn scenario(alloc: Global, names: &[[u8; LENGTH]]) -> Result<Vec<u8>, Fail> {
    let mut text = Vec::new(alloc);
    for name in names {
        text.extend_from_slice(b"make ")?;
        text.extend_from_slice(name)?;
        text.extend_from_slice(b" on G\n")?;
    }
    for _ in 0..8u32 {
        for name in names {
            text.extend_from_slice(b"vote ")?;
            text.extend_from_slice(name)?;
            text.push(b' ')?;
            text.extend_from_slice(name)?;
            text.push(b'\n')?;
        }
    }
    Ok(text)
}

/// The time that it takes to read a scenario without a fault, of which each name is asked for.
fn time(rt: &impl Clock, alloc: Global, text: &[u8]) -> Result<Duration, Fail> {
    let start = Instant::now(rt)?;
    let scene = read(alloc, text)?;
    let elapsed = start.elapsed(rt)?;
    if scene.fault().is_some() || scene.len() != 32_760 {
        return Err("a fault".into());
    }
    Ok(elapsed)
}

/// The least times of both, of four each, by turns, since the machine may be at other work.
fn least_times(
    rt: &impl Clock,
    alloc: Global,
    others: &[u8],
    crowd: &[u8],
) -> Result<(Duration, Duration), Fail> {
    let mut other_time = time(rt, alloc, others)?;
    let mut crowd_time = time(rt, alloc, crowd)?;
    for _ in 0..3u32 {
        other_time = other_time.min(time(rt, alloc, others)?);
        crowd_time = crowd_time.min(time(rt, alloc, crowd)?);
    }
    Ok((other_time, crowd_time))
}

/// Puts each name into the table and finds it there, 16 times.
fn find_all(table: &mut HashMap<[u8; LENGTH], u8>, names: &[[u8; LENGTH]]) -> Result<bool, Fail> {
    for name in names {
        table.insert(*name, 1)?;
    }
    for _ in 0..16u32 {
        for name in names {
            if table.get(name) != Some(&1) {
                return Ok(false);
            }
        }
    }
    Ok(true)
}

/// The time that a table by hash takes.
fn table_time(rt: &impl Clock, alloc: Global, names: &[[u8; LENGTH]]) -> Result<Duration, Fail> {
    let mut table = HashMap::new(alloc);
    let start = Instant::now(rt)?;
    if !find_all(&mut table, names)? {
        return Err("not found".into());
    }
    Ok(start.elapsed(rt)?)
}

/// The least times that a table by hash takes for both, of four each.
fn least_table_times(
    rt: &impl Clock,
    alloc: Global,
    others: &[[u8; LENGTH]],
    crowd: &[[u8; LENGTH]],
) -> Result<(Duration, Duration), Fail> {
    let mut other_time = table_time(rt, alloc, others)?;
    let mut crowd_time = table_time(rt, alloc, crowd)?;
    for _ in 0..3u32 {
        other_time = other_time.min(table_time(rt, alloc, others)?);
        crowd_time = crowd_time.min(table_time(rt, alloc, crowd)?);
    }
    Ok((other_time, crowd_time))
}

/// That it is a crowd shows in a table by hash.
fn compare(
    rt: &(impl Clock + Abort),
    alloc: Global,
    others: &[[u8; LENGTH]],
    crowd: &[[u8; LENGTH]],
) -> Result<(), Fail> {
    let (other_time, crowd_time) = least_table_times(rt, alloc, others, crowd)?;
    holds(rt, 0, crowd_time.as_micros() >= other_time.as_micros() * 4);
    let others = scenario(alloc, others)?;
    let crowd = scenario(alloc, crowd)?;
    let (other_time, crowd_time) = least_times(rt, alloc, &others, &crowd)?;
    holds(
        rt,
        1,
        crowd_time.as_micros() <= other_time.as_micros() * 2 + 50_000,
    );
    Ok(())
}

#[test]
fn crowded_names(rt: HostRuntime) -> Result<(), Fail> {
    let alloc = rt.alloc();
    let others = names(alloc, GROUPS)?;
    let crowd = names(alloc, CROWD)?;
    compare(&rt, alloc, &others, &crowd)
}
