//! The lines that answer a block.

use crate::rows::right;
use crate::tale::{Tale, wrong_in};
use sp_block::BlockFault;
use sp_engine::{Answer, Refusal};
use sp_ids::BlockId;
use sp_report::refused_line;
use sp_tx::TxFault;
use std::alloc::Global;
use std::test::Fail;

/// A refusal and its line.
#[derive(Clone, Copy)]
struct Refused(Refusal, &'static str);

const REFUSALS: &[Refused] = &[
    Refused(Refusal::Spelling(BlockFault::TooLong), "refused too-long\n"),
    Refused(Refusal::Spelling(BlockFault::Short), "refused short\n"),
    Refused(Refusal::Spelling(BlockFault::Version), "refused version\n"),
    Refused(
        Refusal::Spelling(BlockFault::ParentCount),
        "refused parent-count\n",
    ),
    Refused(
        Refusal::Spelling(BlockFault::ParentOrder),
        "refused parent-order\n",
    ),
    Refused(Refusal::Spelling(BlockFault::TxCount), "refused tx-count\n"),
    Refused(
        Refusal::Spelling(BlockFault::Tx(TxFault::Short)),
        "refused tx-short\n",
    ),
    Refused(
        Refusal::Spelling(BlockFault::Tx(TxFault::InputCount)),
        "refused tx-input-count\n",
    ),
    Refused(
        Refusal::Spelling(BlockFault::Tx(TxFault::InputOrder)),
        "refused tx-input-order\n",
    ),
    Refused(
        Refusal::Spelling(BlockFault::Tx(TxFault::PreimageLength)),
        "refused tx-preimage\n",
    ),
    Refused(
        Refusal::Spelling(BlockFault::Tx(TxFault::OutputCount)),
        "refused tx-output-count\n",
    ),
    Refused(
        Refusal::Spelling(BlockFault::Tx(TxFault::Amount)),
        "refused tx-amount\n",
    ),
    Refused(
        Refusal::Spelling(BlockFault::Tx(TxFault::Sum)),
        "refused tx-sum\n",
    ),
    Refused(Refusal::Spelling(BlockFault::Grant), "refused grant\n"),
    Refused(Refusal::Spelling(BlockFault::SameTx), "refused same-tx\n"),
    Refused(
        Refusal::Spelling(BlockFault::SameOutpoint),
        "refused same-outpoint\n",
    ),
    Refused(
        Refusal::Spelling(BlockFault::Trailing),
        "refused trailing\n",
    ),
    Refused(Refusal::Work, "refused work\n"),
];

/// An id whose text begins with 0011 and ends in f0.
fn id() -> BlockId {
    BlockId::from_bytes([
        0x00, 0x11, 0x22, 0x33, 0x44, 0x55, 0x66, 0x77, 0x88, 0x99, 0xaa, 0xbb, 0xcc, 0xdd, 0xee,
        0xff, 0x0f, 0x1e, 0x2d, 0x3c, 0x4b, 0x5a, 0x69, 0x78, 0x87, 0x96, 0xa5, 0xb4, 0xc3, 0xd2,
        0xe1, 0xf0,
    ])
}

#[rattlefmt::skip]
const ANSWERS: &[&str] = &[
    "kept 00112233445566778899aabbccddeeff0f1e2d3c4b5a69788796a5b4c3d2e1f0 present 1\n",
    "kept 00112233445566778899aabbccddeeff0f1e2d3c4b5a69788796a5b4c3d2e1f0 present 511\n",
    "kept 00112233445566778899aabbccddeeff0f1e2d3c4b5a69788796a5b4c3d2e1f0 waiting\n",
    "known 00112233445566778899aabbccddeeff0f1e2d3c4b5a69788796a5b4c3d2e1f0\n",
    "refused work\n",
    "full\n",
];

/// The answer of each of these lines.
fn answer_of(place: usize) -> Answer {
    let id = id();
    match place {
        0 => Answer::Kept { id, present: 1 },
        1 => Answer::Kept { id, present: 511 },
        2 => Answer::Held { id },
        3 => Answer::Known { id },
        4 => Answer::Refused(Refusal::Work),
        _ => Answer::Full,
    }
}

fn wrong_answer(alloc: Global, answer: &Answer, text: &str) -> Result<&'static str, Fail> {
    let tale = Tale::Answer(answer);
    wrong_in(alloc, &tale, text)
}

#[test]
fn answers(rt: HostRuntime) -> Result<(), Fail> {
    for (place, text) in ANSWERS.iter().enumerate() {
        right(
            &rt,
            place,
            wrong_answer(rt.alloc(), &answer_of(place), text)?,
        );
    }
    Ok(())
}

fn wrong_refusal(alloc: Global, row: &Refused) -> Result<&'static str, Fail> {
    if refused_line(row.0).as_slice() != row.1.as_bytes() {
        return Ok("line");
    }
    let answer = Answer::Refused(row.0);
    wrong_answer(alloc, &answer, row.1)
}

#[test]
fn refusals(rt: HostRuntime) -> Result<(), Fail> {
    for (place, row) in REFUSALS.iter().enumerate() {
        right(&rt, place, wrong_refusal(rt.alloc(), row)?);
    }
    Ok(())
}
