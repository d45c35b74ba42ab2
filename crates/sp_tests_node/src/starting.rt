//! A start on a journal that was found, of the same chain and of another one.

use crate::messages::served_on;
use crate::rows::holds;
use crate::served::{Served, Started, Why, start};
use crate::texts::{BLOCKS, disk_of, genesis_id, head_in, head_of, journal};
use sp_disk::Pick;
use sp_fixtures::Numbered;
use sp_io::Fails;
use sp_model::Profile;
use sp_node::StartFault;
use std::test::Fail;

/// Bits of work, and the salt of the genesis block.
type Chain = (u8, u8);

/// How many blocks are present and how many wait, or the chain that was found and that of the head.
type Wanted = Result<(u16, u16), (Chain, Chain)>;

/// The chain of a journal, its blocks, the chain of the head, and what comes of it. The id of block 2
/// begins with one zero.
#[rattlefmt::skip]
const STARTS: &[(Chain, &[usize], Chain, Wanted)] = &[
    ((0, 0), &[], (0, 0), Ok((1, 0))),
    ((0, 1), &[], (0, 1), Ok((1, 0))),
    ((64, 0), &[], (64, 0), Ok((1, 0))),
    ((0, 0), &[1], (0, 0), Ok((2, 0))),
    ((0, 0), &[2, 1], (0, 0), Ok((3, 0))),
    ((1, 0), &[2], (1, 0), Ok((2, 0))),
    // A block whose parent never comes, and one whose parent isn't recorded, or later.
    ((0, 0), &[4], (0, 0), Ok((1, 1))),
    ((0, 0), &[3], (0, 0), Ok((1, 1))),
    ((0, 0), &[3, 1], (0, 0), Ok((3, 0))),
    ((0, 0), &[3, 4, 2], (0, 0), Ok((2, 2))),
    ((0, 0), &[3, 4, 1, 2], (0, 0), Ok((4, 1))),
    // On another genesis block no other one is present.
    ((0, 1), &[1, 3], (0, 1), Ok((1, 2))),
    ((0, 0), &[1], (1, 0), Err(((0, 0), (1, 0)))),
    ((1, 0), &[2], (0, 0), Err(((1, 0), (0, 0)))),
    ((64, 0), &[], (63, 0), Err(((64, 0), (63, 0)))),
    ((0, 0), &[1], (0, 1), Err(((0, 0), (0, 1)))),
    ((0, 1), &[], (0, 0), Err(((0, 1), (0, 0)))),
    ((3, 1), &[], (2, 0), Err(((3, 1), (2, 0)))),
];

/// The engine's numbers of present and of waiting blocks, where it has these bits and just these
/// blocks beside genesis.
fn counts(
    served: &Served,
    blocks: &Numbered,
    bits: u8,
    numbers: &[usize],
) -> Result<(u16, u16), Fail> {
    let engine = served.engine();
    if served.stopped() {
        return Err("stopped".into());
    }
    for number in numbers {
        if engine.block(&blocks.id(*number)).is_none() {
            return Err("a block is missing".into());
        }
    }
    let count = u16::try_from(numbers.len())?.saturating_add(1);
    if engine.kept_count() != count || engine.bits() != bits {
        return Err("other blocks or bits".into());
    }
    Ok((engine.present(), engine.waiting()))
}

/// The fault of a start on this journal with this head, both of profile 1.
fn other_chain(stored: Chain, fed: Chain) -> Result<StartFault, Fail> {
    Ok(StartFault::OtherChain {
        stored_bits: stored.0,
        stored: genesis_id(stored.1)?,
        stored_profile: Profile::One,
        fed_bits: fed.0,
        fed: genesis_id(fed.1)?,
        fed_profile: Profile::One,
    })
}

/// Whether a refused start has this cause.
fn is_refused(why: Why, wanted: Wanted) -> Result<bool, Fail> {
    match wanted {
        Ok(_) => Ok(false),
        Err((stored, fed)) => Ok(why == Why::Starting(other_chain(stored, fed)?)),
    }
}

/// Whether this comes of a start, and the disk is as it was.
fn is_started(
    blocks: &Numbered,
    row: &(Chain, &[usize], Chain, Wanted),
    fresh: bool,
) -> Result<bool, Fail> {
    let (stored, numbers, fed, wanted) = row;
    let bytes = journal(stored.0, stored.1, blocks, numbers)?;
    let disk = disk_of(blocks.alloc, &bytes, 4096, Fails::Never)?;
    let head = head_of(blocks.alloc, fed.0, fed.1)?;
    let (is_so, disk) = match start(blocks.alloc, disk, fresh, head) {
        Started::Refused(disk, why) => (is_refused(why, *wanted)?, disk),
        Started::Served(served) => {
            let found = counts(&served, blocks, fed.0, numbers);
            let disk = served.into_disk();
            (Ok(found?) == *wanted, disk)
        }
    };
    Ok(is_so && disk.image(Pick::Fill(7))?.as_slice() == bytes.as_slice())
}

/// A journal is never discarded.
#[test]
fn on_a_journal(rt: HostRuntime) -> Result<(), Fail> {
    let blocks = Numbered::of(rt.alloc(), BLOCKS)?;
    for (place, row) in STARTS.iter().enumerate() {
        holds(&rt, place, is_started(&blocks, row, false)?);
        holds(&rt, place, is_started(&blocks, row, true)?);
    }
    Ok(())
}

/// The two profiles, and the byte by which a journal names each.
const NAMED: [(Profile, u8); 2] = [(Profile::One, b'1'), (Profile::Two, b'2')];

/// The fault of a start on a journal of one profile with a head of another one.
fn other_profile(stored: Profile, fed: Profile) -> Result<StartFault, Fail> {
    Ok(StartFault::OtherChain {
        stored_bits: 0,
        stored: genesis_id(0)?,
        stored_profile: stored,
        fed_bits: 0,
        fed: genesis_id(0)?,
        fed_profile: fed,
    })
}

/// Whether a journal of one profile serves a head of another one just where they are the same, and
/// the fault names both; and the disk is as it was.
fn is_of_profile(blocks: &Numbered, stored: (Profile, u8), fed: Profile) -> Result<bool, Fail> {
    let mut bytes = journal(0, 0, blocks, &[1])?;
    if let Some(there) = bytes.get_mut(8) {
        *there = stored.1;
    }
    let disk = disk_of(blocks.alloc, &bytes, 4096, Fails::Never)?;
    let head = head_in(blocks.alloc, fed, 0, 0)?;
    let fault = other_profile(stored.0, fed)?;
    let (is_so, disk) = match start(blocks.alloc, disk, false, head) {
        Started::Refused(disk, why) => { (stored.0 != fed && why == Why::Starting(fault), disk) }
        Started::Served(served) => {
            let profile = served.engine().profile();
            let disk = served.into_disk();
            (stored.0 == fed && profile == fed, disk)
        }
    };
    Ok(is_so && disk.image(Pick::Fill(7))?.as_slice() == bytes.as_slice())
}

#[test]
fn in_each_profile(rt: HostRuntime) -> Result<(), Fail> {
    let blocks = Numbered::of(rt.alloc(), BLOCKS)?;
    for (place, stored) in NAMED.iter().enumerate() {
        for fed in NAMED {
            holds(&rt, place, is_of_profile(&blocks, *stored, fed.0)?);
        }
    }
    Ok(())
}

/// What is counted on a journal of one block where the calls from this one on fail.
fn counts_without(blocks: &Numbered, call: u32) -> Result<(u16, u16), Fail> {
    let bytes = journal(0, 0, blocks, &[1])?;
    let served = served_on(blocks.alloc, &bytes, Fails::From(call))?;
    let found = counts(&served, blocks, 0, &[1]);
    drop(served);
    found
}

/// The disk of a found journal isn't called by the start: the five calls before it are those of the
/// opening.
#[test]
fn without_calls(rt: HostRuntime) -> Result<(), Fail> {
    let blocks = Numbered::of(rt.alloc(), BLOCKS)?;
    holds(&rt, 0, counts_without(&blocks, 5)? == (2, 0));
    Ok(())
}
