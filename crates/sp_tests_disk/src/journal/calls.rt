//! Creation and two appends, with the calls of the disk failing from each one on, and what each crash
//! leaves after the call that failed first.

ghost use Rattle.std.specs.Prelude.{◌≡◌, ◌<◌, IfOk};
ghost use Rattle.sp_block.specs.Block.{IsOther};

use crate::journal::texts::{FRONT, Found, HEAD, child, child_block, found};
use crate::journal::untold::Untold;
use crate::rows::holds;
use sp_block::Block;
use sp_disk::Pick;
use sp_fixtures::{GENESIS, flat, genesis_of};
use sp_io::{Calls, Fails};
use sp_journal::{AppendFault, CreateFault, Gate, Journal, JournalFault};
use sp_model::Profile;
use std::alloc::Global;
use std::test::Fail;

/// One outcome of each kind.
const PICKS: [Pick; 4] = [Pick::Old, Pick::New, Pick::Fill(0), Pick::Fill(0xA5)];

/// A journal without work over the smallest genesis block.
fn create(
    alloc: Global,
    disk: &mut Untold,
    gate: Gate,
) -> Result<Result<Journal, CreateFault>, Fail>
    ensures bits { IfOk result (λ made. IfOk made (λ journal. journal.bits ≡ 0)) }
    ensures few { IfOk result (λ made. IfOk made (λ journal. journal.records < 511)) }
{
    let genesis = genesis_of(alloc, &GENESIS)?;
    Ok(Journal::create(alloc, disk, gate, Profile::One, 0, &genesis))
}

/// Adds a block to a journal without work.
fn append(journal: &mut Journal, disk: &mut Untold, block: &Block) -> Result<(), AppendFault>
    requires room { journal.old.records < 511 }
    requires bits { journal.old.bits ≡ 0 }
    requires other { IsOther block.now }
    ensures { journal.new.bits ≡ 0 }
{
    journal.append(disk, block)
}

/// How far a run came: the records of its journal, none where it wasn't made, and whether the last
/// call failed.
type Ran = (Option<u16>, bool);

/// Whether the block of this salt wasn't added.
fn is_left_out(
    alloc: Global,
    journal: &mut Journal,
    disk: &mut Untold,
    salt: u16,
) -> Result<bool, Fail>
    requires bits { journal.old.bits ≡ 0 }
    ensures { IfOk result (λ failed. journal.new.bits ≡ 0) }
{
    if journal.records() >= 511 {
        return Err("full".into());
    }
    let block = child_block(alloc, salt)?;
    Ok(append(journal, disk, &block).is_err())
}

/// Adds the blocks of salts 1 and 2, up to the first fault.
fn add_both(alloc: Global, journal: &mut Journal, disk: &mut Untold) -> Result<Ran, Fail>
    requires bits { journal.old.bits ≡ 0 }
{
    let failed = is_left_out(alloc, journal, disk, 1)? || is_left_out(alloc, journal, disk, 2)?;
    Ok((Some(journal.records()), failed))
}

/// Creates a journal and adds to it, up to the first fault.
fn run(alloc: Global, disk: &mut Untold, gate: Gate) -> Result<Ran, Fail> {
    match create(alloc, disk, gate)? {
        Ok(mut journal) => add_both(alloc, &mut journal, disk),
        Err(CreateFault::DiskFault) => Ok((None, true)),
        Err(CreateFault::Memory) => Err("memory".into()),
    }
}

/// The first call that fails on an empty disk, how far the run came, and what each crash leaves then. A
/// creation has six calls and an append four, writes and syncs in turn.
#[rattlefmt::skip]
const FAILING: &[(u32, Ran, &[u8])] = &[
    (0, (None, true), b"--co"),
    (1, (None, true), b"-cco"),
    (2, (None, true), b"cccc"),
    (3, (None, true), b"cccc"),
    (4, (None, true), b"ccc0"),
    (5, (None, true), b"c0c0"),
    (6, (Some(0), true), b"0000"),
    (7, (Some(0), true), b"0000"),
    (8, (Some(0), true), b"0001"),
    (9, (Some(0), true), b"0101"),
    (10, (Some(1), true), b"1111"),
    (11, (Some(1), true), b"1111"),
    (12, (Some(1), true), b"1112"),
    (13, (Some(1), true), b"1212"),
    (14, (Some(2), false), b"2222"),
];

/// What is found as one letter: none on an empty disk, a closed gate or an open one without a journal,
/// the number of records, or anything else.
fn letter_of(found: Found) -> u8 {
    match found {
        Err(
            JournalFault::NotJournal {
                gate: Gate::Missing,
            },
        ) => b'-',
        Err(JournalFault::NotJournal { gate: Gate::Shut }) => b'c',
        Err(JournalFault::NotJournal { gate: Gate::Set }) => b'o',
        Ok((0, 0)) => b'0',
        Ok((0, 1)) => b'1',
        Ok((0, 2)) => b'2',
        _ => b'?',
    }
}

/// What each crash leaves now.
fn crashes(alloc: Global, disk: &Untold) -> Result<[u8; 4], Fail> {
    let mut all = [b'?'; 4];
    for (left, pick) in all.iter_mut().zip(PICKS) {
        *left = letter_of(found(alloc, disk.image(pick)?)?);
    }
    Ok(all)
}

/// Whether a run over these bytes comes so far, and each crash leaves this then.
fn plays(
    alloc: Global,
    bytes: &[u8],
    gate: Gate,
    fails: Fails,
    wanted: (Ran, &[u8]),
) -> Result<bool, Fail> {
    let mut disk = Untold::of(alloc, bytes, fails)?;
    let ran = run(alloc, &mut disk, gate)?;
    let left = crashes(alloc, &disk)?;
    Ok(ran == wanted.0 && left.as_slice() == wanted.1)
}

#[test]
fn each_call_failing(rt: HostRuntime) -> Result<(), Fail> {
    for (first, ran, left) in FAILING {
        let fails = Fails::From(*first);
        let wanted = (*ran, *left);
        let plays = plays(rt.alloc(), &[], Gate::Missing, fails, wanted)?;
        holds(&rt, *first as usize, plays);
    }
    Ok(())
}

/// Bytes that hold no journal, their gate, and the number of calls of a creation over them: a closed
/// gate isn't written again. What stood behind has no meaning afterwards.
#[rattlefmt::skip]
const OVER: &[(&[u8], Gate, u32)] = &[
    (&[], Gate::Missing, 6),
    (&[0], Gate::Shut, 4),
    (&[7, 1, 2, 3], Gate::Shut, 4),
    (&[0xA5], Gate::Set, 6),
    (&[0xA5; 300], Gate::Set, 6),
    (&[0; 300], Gate::Shut, 4),
];

/// Whether a creation over these bytes fails where so many calls are done.
fn is_refused(alloc: Global, bytes: &[u8], gate: Gate, calls: u32) -> Result<bool, Fail> {
    let mut disk = Untold::of(alloc, bytes, Fails::From(calls))?;
    Ok(create(alloc, &mut disk, gate)?.is_err())
}

#[test]
fn creation_over_bytes(rt: HostRuntime) -> Result<(), Fail> {
    for (row, (bytes, gate, calls)) in OVER.iter().enumerate() {
        holds(
            &rt,
            row,
            is_refused(rt.alloc(), bytes, *gate, calls.saturating_sub(1))?,
        );
        let fails = Fails::From(*calls);
        let made: (Ran, &[u8]) = ((Some(0), true), b"0000");
        holds(&rt, row, plays(rt.alloc(), bytes, *gate, fails, made)?);
        let whole: (Ran, &[u8]) = ((Some(2), false), b"2222");
        holds(
            &rt,
            row,
            plays(rt.alloc(), bytes, *gate, Fails::Never, whole)?,
        );
    }
    Ok(())
}

/// What a second append answers after the first one met this failing call, and the records then.
fn after_a_fault(alloc: Global, call: u32) -> Result<(Result<(), AppendFault>, u16, u64), Fail> {
    let failing = Fails::At(Calls::of(Vec::from_slice(alloc, &[call])?));
    let mut disk = Untold::of(alloc, &[], failing)?;
    let Ok(mut journal) = create(alloc, &mut disk, Gate::Missing)? else {
        return Err("no journal".into());
    };
    let block = child_block(alloc, 1)?;
    if append(&mut journal, &mut disk, &block) != Err(AppendFault::DiskFault) {
        return Err("no fault".into());
    }
    if journal.records() >= 511 {
        return Err("full".into());
    }
    let again = append(&mut journal, &mut disk, &block);
    Ok((again, journal.records(), disk.faults()))
}

/// The journal is closed from then on, also where the disk would serve again.
#[test]
fn closed(rt: HostRuntime) -> Result<(), Fail> {
    for call in 6..=9 {
        let wanted = (Err(AppendFault::Closed), 0, 1);
        holds(
            &rt,
            call as usize,
            after_a_fault(rt.alloc(), call)? == wanted,
        );
    }
    Ok(())
}

/// The bytes of the journal with the block of salt 1.
fn one_record(alloc: Global) -> Result<Vec<u8>, Fail> {
    let block = child(alloc, 1)?;
    Ok(flat(alloc, &[HEAD, FRONT, &block, &[0]])?)
}

/// How far a run comes whose eleventh call fails, and what the disk then has.
fn left_by_ten(alloc: Global) -> Result<(Ran, Vec<u8>), Fail> {
    let mut disk = Untold::of(alloc, &[], Fails::From(10))?;
    let ran = run(alloc, &mut disk, Gate::Missing)?;
    Ok((ran, disk.image(Pick::Old)?))
}

#[test]
fn written_bytes(rt: HostRuntime) -> Result<(), Fail> {
    let (ran, image) = left_by_ten(rt.alloc())?;
    holds(&rt, 0, ran == (Some(1), true));
    let wanted = one_record(rt.alloc())?;
    holds(&rt, 1, image.as_slice() == wanted.as_slice());
    Ok(())
}
