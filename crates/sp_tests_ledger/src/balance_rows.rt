//! Blocks that carry payments, and what is left under each lock then, worked out by hand from the rules.

use crate::acceptance_rows::Laid;
use crate::left::Left;
use crate::payments::{ALICE, BOB, CAROL, DAVE, EVE};

/// What genesis carries and the blocks from number 1 on. Then each lock that an output has, in the
/// order of their first outputs, and what is left under it: where the blocks come by their numbers,
/// and where the last of them comes first.
#[derive(Clone, Copy)]
pub struct Row {
    pub genesis: &'static [usize],
    pub blocks: &'static [Laid],
    pub forward: &'static [Left],
    pub backward: &'static [Left],
}

#[rattlefmt::skip]
pub const ROWS: &[Row] = &[
    Row { genesis: &[0], blocks: &[], forward: &[(ALICE, 100)], backward: &[(ALICE, 100)] },
    // A tie rejects both spends, and a block on one decides.
    Row {
        genesis: &[0],
        blocks: &[(&[0], &[1]), (&[0], &[2])],
        forward: &[(ALICE, 100), (BOB, 0), (CAROL, 0)],
        backward: &[(ALICE, 100), (CAROL, 0), (BOB, 0)],
    },
    Row {
        genesis: &[0],
        blocks: &[(&[0], &[1]), (&[0], &[2]), (&[1], &[])],
        forward: &[(ALICE, 0), (BOB, 100), (CAROL, 0)],
        backward: &[(ALICE, 0), (CAROL, 0), (BOB, 100)],
    },
    // What is paid on falls with what paid it.
    Row {
        genesis: &[0],
        blocks: &[(&[0], &[1]), (&[0], &[2]), (&[1], &[3])],
        forward: &[(ALICE, 0), (BOB, 0), (CAROL, 0), (DAVE, 100)],
        backward: &[(ALICE, 0), (CAROL, 0), (BOB, 0), (DAVE, 100)],
    },
    Row {
        genesis: &[0],
        blocks: &[(&[0], &[1]), (&[0], &[2]), (&[1], &[3]), (&[2], &[]), (&[2], &[])],
        forward: &[(ALICE, 0), (BOB, 0), (CAROL, 100), (DAVE, 0)],
        backward: &[(ALICE, 0), (CAROL, 100), (BOB, 0), (DAVE, 0)],
    },
    // A transaction in two blocks counts once.
    Row {
        genesis: &[0],
        blocks: &[(&[0], &[1]), (&[0], &[1])],
        forward: &[(ALICE, 0), (BOB, 100)],
        backward: &[(ALICE, 0), (BOB, 100)],
    },
];

/// Three transactions pay Dave, and the source of the third is spent twice.
#[rattlefmt::skip]
pub const SUMS: &[Row] = &[
    Row { genesis: &[22, 23, 24], blocks: &[], forward: &[(ALICE, 60)], backward: &[(ALICE, 60)] },
    Row {
        genesis: &[22, 23, 24],
        blocks: &[(&[0], &[25, 26, 27])],
        forward: &[(ALICE, 0), (DAVE, 60)],
        backward: &[(ALICE, 0), (DAVE, 60)],
    },
    // The tie is on the third alone.
    Row {
        genesis: &[22, 23, 24],
        blocks: &[(&[0], &[25, 26, 27]), (&[0], &[28])],
        forward: &[(ALICE, 30), (DAVE, 30), (EVE, 0)],
        backward: &[(ALICE, 30), (EVE, 0), (DAVE, 30)],
    },
    Row {
        genesis: &[22, 23, 24],
        blocks: &[(&[0], &[25, 26, 27]), (&[0], &[28]), (&[1], &[])],
        forward: &[(ALICE, 0), (DAVE, 60), (EVE, 0)],
        backward: &[(ALICE, 0), (EVE, 0), (DAVE, 60)],
    },
    Row {
        genesis: &[22, 23, 24],
        blocks: &[(&[0], &[25, 26, 27]), (&[0], &[28]), (&[1], &[]), (&[2], &[]), (&[2], &[])],
        forward: &[(ALICE, 0), (DAVE, 30), (EVE, 30)],
        backward: &[(ALICE, 0), (EVE, 30), (DAVE, 30)],
    },
];
