//! Transactions and their bytes, both written down by hand from the table of the format.

use crate::pieces::{HALF, HIGH, HUNDRED, LIMIT, LOCK, LOW, ONE, Pieces};
use sp_fixtures::flat;
use sp_form::ReadFault;
use sp_ids::{Lock, Outpoint, TxId};
use sp_tx::{
    Bytes, Input, Inputs, Output, Outputs, Tx, TxFault, TxReadFault, Txs, id, opens, read_tx,
    write_tx,
};
use std::alloc::{AllocError, Global};
use std::test::Fail;

/// Amounts, the lowest byte first.
const NOTHING: [u8; 8] = [0; 8];

const LESS_THAN_HALF: [u8; 8] = [0xff, 0xff, 0xff, 0xff, 0xff, 0xff, 0xff, 0x3f];

const MOST: [u8; 8] = [0xff, 0xff, 0xff, 0xff, 0xff, 0xff, 0xff, 0x7f];

const ALL_ONES: [u8; 8] = [0xff; 8];

/// The faults.
const SHORT: TxReadFault = ReadFault::Fault(TxFault::Short);

const INPUT_COUNT: TxReadFault = ReadFault::Fault(TxFault::InputCount);

const INPUT_ORDER: TxReadFault = ReadFault::Fault(TxFault::InputOrder);

const PREIMAGE_LENGTH: TxReadFault = ReadFault::Fault(TxFault::PreimageLength);

const OUTPUT_COUNT: TxReadFault = ReadFault::Fault(TxFault::OutputCount);

const AMOUNT: TxReadFault = ReadFault::Fault(TxFault::Amount);

const SUM: TxReadFault = ReadFault::Fault(TxFault::Sum);

/// Bytes by their fields, and where the transaction ends that they begin with, or their fault.
type Row = (Pieces, Result<usize, TxReadFault>);

#[rattlefmt::skip]
const ROWS: &[Row] = &[
    (&[&[0], &[1], &HUNDRED, &LOCK], Ok(42)),
    (&[&[0], &[1], &HUNDRED, &LOCK, b"and so on"], Ok(42)),
    (&TWO, Ok(153)),
    (&[], Err(SHORT)),
    // At most 16 inputs.
    (&[&[16]], Err(SHORT)),
    (&[&[17]], Err(INPUT_COUNT)),
    (&[&[255]], Err(INPUT_COUNT)),
    // Outpoints ascend by the id, and then by the index. Both are read before they are judged.
    (&[&[2], &LOW, &[1], &[1], b"a", &LOW], Err(SHORT)),
    (&[&[2], &LOW, &[1], &[1], b"a", &LOW, &[0]], Err(INPUT_ORDER)),
    (&[&[2], &LOW, &[1], &[1], b"a", &LOW, &[1]], Err(INPUT_ORDER)),
    (&[&[2], &LOW, &[1], &[1], b"a", &LOW, &[2]], Err(SHORT)),
    (&[&[2], &HIGH, &[0], &[1], b"a", &LOW, &[9]], Err(INPUT_ORDER)),
    (&[&[2], &LOW, &[9], &[1], b"a", &HIGH, &[0]], Err(SHORT)),
    (&[&[2], &LOW, &[1], &[1], b"a", &LOW, &[1], &[0]], Err(INPUT_ORDER)),
    // A preimage of 1 to 64 bytes.
    (&[&[1], &LOW, &[0], &[0]], Err(PREIMAGE_LENGTH)),
    (&[&[1], &LOW, &[0], &[65]], Err(PREIMAGE_LENGTH)),
    (&[&[1], &LOW, &[0], &[64], &[5; 63]], Err(SHORT)),
    (&[&[1], &LOW, &[0], &[64], &[5; 64], &[0]], Err(OUTPUT_COUNT)),
    (&[&[1], &LOW, &[0], &[64], &[5; 64], &[1], &ONE, &LOCK], Ok(140)),
    // 1 to 16 outputs.
    (&[&[0], &[0]], Err(OUTPUT_COUNT)),
    (&[&[0], &[17]], Err(OUTPUT_COUNT)),
    (&[&[0], &[16]], Err(SHORT)),
    // Amounts of at least 1, together below 2^63, which is judged before the lock is read.
    (&[&[0], &[1], &[0; 7]], Err(SHORT)),
    (&[&[0], &[1], &NOTHING], Err(AMOUNT)),
    (&[&[0], &[2], &MOST, &LOCK, &NOTHING], Err(AMOUNT)),
    (&[&[0], &[1], &MOST], Err(SHORT)),
    (&[&[0], &[1], &MOST, &LOCK], Ok(42)),
    (&[&[0], &[1], &LIMIT], Err(SUM)),
    (&[&[0], &[1], &ALL_ONES], Err(SUM)),
    (&[&[0], &[2], &ONE, &LOCK, &ALL_ONES], Err(SUM)),
    (&[&[0], &[2], &HALF, &LOCK, &HALF], Err(SUM)),
    (&[&[0], &[2], &HALF, &LOCK, &LESS_THAN_HALF, &LOCK], Ok(82)),
];

/// Two inputs and two outputs.
#[rattlefmt::skip]
const TWO: [&[u8]; 14] = [
    &[2], &LOW, &[9], &[1], b"a", &HIGH, &[0], &[2], b"bc",
    &[2], &ONE, &LOCK, &HALF, &LOCK,
];

/// Reads at a place, and writes what was read behind what stands before that place: where it ended, and
/// whether just what stands before the end was written.
fn read(alloc: Global, bytes: &[u8], at: usize) -> Result<(usize, bool), TxReadFault> {
    let (before, _) = bytes.split_at(at.min(bytes.len()));
    let (tx, end) = read_tx(alloc, bytes, before.len())?;
    let mut out = Vec::from_slice(alloc, before)?;
    let is_written = write_tx(&tx, &mut out).is_ok();
    Ok((end, is_written && bytes.get(..end) == Some(out.as_slice())))
}

/// What is read where it is written again as it was.
fn rewritten(answer: Result<usize, TxReadFault>) -> Result<(usize, bool), TxReadFault> {
    Ok((answer?, true))
}

/// The first of the rows that is read otherwise.
fn misread(alloc: Global, rows: &[Row]) -> Result<Option<usize>, Fail> {
    for (place, (fields, answer)) in rows.iter().enumerate() {
        if read(alloc, &flat(alloc, fields)?, 0) != rewritten(*answer) {
            return Ok(Some(place));
        }
    }
    Ok(None)
}

#[test]
fn reads(rt: HostRuntime) -> Result<(), Fail> {
    assert_eq!(rt; misread(rt.alloc(), ROWS)?, None);
    Ok(())
}

/// Whether each proper front of these bytes is short.
fn are_short(alloc: Global, bytes: &[u8]) -> bool {
    for size in 0..bytes.len() {
        if read(alloc, &bytes[..size], 0) != Err(SHORT) {
            return false;
        }
    }
    true
}

#[test]
fn fronts(rt: HostRuntime) -> Result<(), Fail> {
    assert!(rt; are_short(rt.alloc(), &flat(rt.alloc(), &TWO)?));
    Ok(())
}

/// A place among other bytes, and where the transaction ends that begins there, or the fault.
type Place = (usize, Result<usize, TxReadFault>);

const PLACES: &[Place] = &[
    (0, Err(INPUT_COUNT)),
    (3, Ok(45)),
    (45, Err(INPUT_COUNT)),
    (46, Err(SHORT)),
];

const AMONG_OTHERS: &[&[u8]] = &[b"###", &[0], &[1], &HUNDRED, &LOCK, b"#"];

/// The first of the places at which these bytes are read otherwise.
fn misplaced(alloc: Global, bytes: &[u8], places: &[Place]) -> Option<usize> {
    for (at, answer) in places {
        if read(alloc, bytes, *at) != rewritten(*answer) {
            return Some(*at);
        }
    }
    None
}

#[test]
fn places(rt: HostRuntime) -> Result<(), Fail> {
    let bytes = flat(rt.alloc(), AMONG_OTHERS)?;
    assert_eq!(rt; misplaced(rt.alloc(), &bytes, PLACES), None);
    Ok(())
}

/// Which id an outpoint has.
#[derive(Clone, Copy)]
pub enum Spent {
    Low,
    High,
}

/// An input: the id and the index of its outpoint, and its preimage.
pub type Spend = (Spent, u8, &'static [u8]);

/// Inputs, the amounts of outputs that all have the one lock, and the fields of the transaction
/// that they make, or the fault.
type Made = (
    &'static [Spend],
    &'static [u64],
    Result<Pieces, TxReadFault>,
);

#[rattlefmt::skip]
const MADE: &[Made] = &[
    (&[], &[100], Ok(&[&[0], &[1], &HUNDRED, &LOCK])),
    // Sorted by the id, and then by the index.
    (&[(Spent::High, 0, b"bc"), (Spent::Low, 9, b"a")], &[1, 1 << 62], Ok(&TWO)),
    (&[(Spent::Low, 9, b"a"), (Spent::High, 0, b"bc")], &[1, 1 << 62], Ok(&TWO)),
    (
        &[(Spent::Low, 2, b"a"), (Spent::Low, 1, b"b")], &[1],
        Ok(&[&[2], &LOW, &[1], &[1], b"b", &LOW, &[2], &[1], b"a", &[1], &ONE, &LOCK]),
    ),
    (&[(Spent::Low, 1, b"a"), (Spent::Low, 1, b"b")], &[1], Err(INPUT_ORDER)),
    (&[(Spent::Low, 0, b"")], &[1], Err(PREIMAGE_LENGTH)),
    (&[], &[], Err(OUTPUT_COUNT)),
    (&[], &[1, 0], Err(AMOUNT)),
    (&[], &[1 << 63], Err(SUM)),
    (&[], &[1 << 62, 1 << 62], Err(SUM)),
    (&[], &[1 << 62, (1 << 62) - 1], Ok(&[&[0], &[2], &HALF, &LOCK, &LESS_THAN_HALF, &LOCK])),
    // The first fault in the order of reading, the inputs sorted.
    (&[(Spent::High, 0, b""), (Spent::Low, 0, b"a"), (Spent::Low, 0, b"b")], &[], Err(INPUT_ORDER)),
    (&[(Spent::High, 0, b""), (Spent::Low, 0, b"a")], &[], Err(PREIMAGE_LENGTH)),
    (&[], &[0, 1 << 63], Err(AMOUNT)),
];

fn input(alloc: Global, (id, index, preimage): Spend) -> Result<Input, AllocError> {
    let tx = TxId::from_bytes(match id {
        Spent::Low => LOW,
        Spent::High => HIGH,
    });
    let preimage = Bytes::of(Vec::from_slice(alloc, preimage)?);
    Ok(Input {
        from: Outpoint { tx, index },
        preimage,
    })
}

pub fn made(alloc: Global, spends: &[Spend], amounts: &[u64]) -> Result<Tx, TxReadFault> {
    let mut inputs = Vec::new(alloc);
    for &spend in spends {
        inputs.push(input(alloc, spend)?)?;
    }
    let mut outputs = Vec::new(alloc);
    let lock = Lock::from_bytes(LOCK);
    for &amount in amounts {
        outputs.push(Output { amount, lock })?;
    }
    Tx::new(alloc, Inputs::of(inputs), Outputs::of(outputs))
}

/// The bytes that spell it.
fn written_of(alloc: Global, tx: &Tx) -> Result<Vec<u8>, TxReadFault> {
    let mut out = Vec::new(alloc);
    match write_tx(tx, &mut out) {
        Ok(()) => Ok(out),
        Err(_) => Err(ReadFault::Memory),
    }
}

fn written(alloc: Global, spends: &[Spend], amounts: &[u64]) -> Result<Vec<u8>, TxReadFault> {
    written_of(alloc, &made(alloc, spends, amounts)?)
}

/// Whether just this is made of inputs and amounts.
fn is_made(alloc: Global, (spends, amounts, answer): Made) -> Result<bool, Fail> {
    let written = written(alloc, spends, amounts);
    Ok(match answer {
        Ok(fields) => written == Ok(flat(alloc, fields)?),
        Err(fault) => written == Err(fault),
    })
}

/// The first of the rows of which something else is made.
fn mismade(alloc: Global, rows: &[Made]) -> Result<Option<usize>, Fail> {
    for (place, row) in rows.iter().enumerate() {
        if !is_made(alloc, *row)? {
            return Ok(Some(place));
        }
    }
    Ok(None)
}

#[test]
fn makes(rt: HostRuntime) -> Result<(), Fail> {
    assert_eq!(rt; mismade(rt.alloc(), MADE)?, None);
    Ok(())
}

/// The index and the preimage of each input, and the amounts of the outputs.
fn parts_of(alloc: Global, txs: &Txs) -> Result<(Vec<u8>, Vec<u64>), AllocError> {
    let mut inputs = Vec::new(alloc);
    let mut amounts = Vec::new(alloc);
    for tx in txs.as_slice() {
        for input in tx.inputs.as_slice() {
            inputs.push(input.from.index)?;
            inputs.extend_from_slice(input.preimage.as_slice())?;
        }
        for output in tx.outputs.as_slice() {
            amounts.push(output.amount)?;
        }
    }
    Ok((inputs, amounts))
}

#[test]
fn parts(rt: HostRuntime) -> Result<(), Fail> {
    let mut list = Vec::new(rt.alloc());
    list.push(made(
        rt.alloc(),
        &[(Spent::High, 0, b"bc"), (Spent::Low, 9, b"a")],
        &[1, 2],
    )?)?;
    let (inputs, amounts) = parts_of(rt.alloc(), &Txs::of(list))?;
    assert!(rt; inputs.as_slice() == b"\x09a\x00bc".as_slice());
    assert!(rt; amounts.as_slice() == [1, 2].as_slice());
    Ok(())
}

/// Numbers of inputs, of the bytes of each preimage, and of outputs of 1.
type Numbers = (u16, usize, u16);

/// How many bytes spell the transaction of so many parts, or its fault.
#[rattlefmt::skip]
const MANY: &[(Numbers, Result<usize, TxReadFault>)] = &[
    ((16, 64, 16), Ok(2210)),
    // Numbers that one byte can't hold are taken whole.
    ((17, 1, 1), Err(INPUT_COUNT)),
    ((257, 1, 1), Err(INPUT_COUNT)),
    ((1, 65, 1), Err(PREIMAGE_LENGTH)),
    ((1, 300, 1), Err(PREIMAGE_LENGTH)),
    ((0, 1, 17), Err(OUTPUT_COUNT)),
    ((0, 1, 257), Err(OUTPUT_COUNT)),
];

/// Inputs whose outpoints descend.
fn inputs_of(alloc: Global, count: u16, size: usize) -> Result<Inputs, TxReadFault> {
    let mut inputs = Vec::new(alloc);
    for number in 0..count {
        let [low, _] = number.to_le_bytes();
        let mut input = input(alloc, (Spent::Low, 255 - low, b""))?;
        input.preimage = Bytes::of(vec![in alloc; 5u8; size]?);
        inputs.push(input)?;
    }
    Ok(Inputs::of(inputs))
}

/// A transaction of so many parts.
fn tx_of(alloc: Global, (count, size, outputs): Numbers) -> Result<Tx, TxReadFault> {
    let output = Output {
        amount: 1,
        lock: Lock::from_bytes(LOCK),
    };
    let outputs = Outputs::of(vec![in alloc; output; usize::from(outputs)]?);
    Ok(Tx::new(alloc, inputs_of(alloc, count, size)?, outputs)?)
}

fn read_again(alloc: Global, tx: &Tx) -> Result<(usize, bool), TxReadFault> {
    let bytes = written_of(alloc, tx)?;
    let is_read = read(alloc, &bytes, 0) == Ok((bytes.len(), true));
    Ok((bytes.len(), is_read))
}

/// How many bytes are written of a transaction of so many parts, and whether they are read again.
fn many(alloc: Global, numbers: Numbers) -> Result<(usize, bool), TxReadFault> {
    let tx = tx_of(alloc, numbers)?;
    let answer = read_again(alloc, &tx);
    drop(tx);
    answer
}

/// The first of the rows of which something else is made.
fn miscounted(alloc: Global, rows: &[(Numbers, Result<usize, TxReadFault>)]) -> Option<usize> {
    for (place, (numbers, answer)) in rows.iter().enumerate() {
        if many(alloc, *numbers) != rewritten(*answer) {
            return Some(place);
        }
    }
    None
}

#[test]
fn numbers(rt: HostRuntime) {
    assert_eq!(rt; miscounted(rt.alloc(), MANY), None);
}

/// Whether this preimage opens an output of `LOCK`.
fn is_opened(alloc: Global, preimage: &'static [u8]) -> Result<bool, AllocError> {
    let output = Output {
        amount: 1,
        lock: Lock::from_bytes(LOCK),
    };
    Ok(opens(&input(alloc, (Spent::Low, 0, preimage))?, &output))
}

#[test]
fn locks(rt: HostRuntime) -> Result<(), Fail> {
    let opened = (
        is_opened(rt.alloc(), b"abc")?,
        is_opened(rt.alloc(), b"abd")?,
    );
    assert_eq!(rt; opened, (true, false));
    Ok(())
}

/// The SHA-256 of the 42 bytes of a grant of 100.
const GRANT_ID: [u8; 64] = *b"fc3df441fd5d999445034b5cd3e3b90e8abf59fa1bcf799ebde99bb336af0382";

/// The digits of its id.
fn digits(alloc: Global, tx: &Tx) -> Result<[u8; 64], Fail> {
    let mut digits = [0; 64];
    id(alloc, tx)?.to_hex(&mut digits);
    Ok(digits)
}

#[test]
fn ids(rt: HostRuntime) -> Result<(), Fail> {
    let grant = made(rt.alloc(), &[], &[100])?;
    assert!(rt; digits(rt.alloc(), &grant)? == GRANT_ID);
    Ok(())
}
