//! Blocks that arrive, and what is said of them, worked out by hand from the rules.

use crate::engine::Told;
use sp_model::Word;

/// The parents of each block, by number, from number 1 on; genesis is number 0.
pub type Parenthood = &'static [&'static [usize]];

/// 1 and 2 stand side by side on genesis.
pub const TWO: Parenthood = &[&[0], &[0]];

/// A third block, on 1.
const THREE: Parenthood = &[&[0], &[0], &[1]];

/// Two blocks more, on 2.
const FIVE: Parenthood = &[&[0], &[0], &[1], &[2], &[2]];

const CHAIN: Parenthood = &[&[0], &[1]];

/// 3 has 1 and 2 as parents.
const DIAMOND: Parenthood = &[&[0], &[0], &[1, 2]];

/// Each of 1, 2 and 3 comes before the next.
#[rattlefmt::skip]
const CYCLE: Parenthood = &[&[0], &[0], &[0], &[1], &[4, 2], &[2], &[6, 3], &[3], &[8, 1]];

/// Three blocks more, of which 12 stands on all that came before.
#[rattlefmt::skip]
pub const TWELVE: Parenthood = &[
    &[0], &[0], &[0], &[1], &[4, 2], &[2], &[6, 3], &[3], &[8, 1], &[5, 7], &[9], &[10, 11],
];

/// 4 waits for a block that doesn't come.
const LATE: Parenthood = &[&[0], &[1], &[0], &[3, 6]];

/// A block and what is told of it.
pub type Came = (usize, Told);

/// Two blocks and the word that all blocks say of them.
pub type Said = (usize, usize, Word);

/// Blocks that arrive, which of them are present at the end, in their order, how many wait, and
/// what is said then.
#[derive(Clone, Copy)]
pub struct Row {
    pub blocks: Parenthood,
    pub came: &'static [Came],
    pub order: &'static [usize],
    pub waiting: u16,
    pub said: &'static [Said],
}

/// Each block in its order, and present at once.
const ONE_BY_ONE: &[Came] = &[
    (1, Told::Kept(1)),
    (2, Told::Kept(1)),
    (3, Told::Kept(1)),
    (4, Told::Kept(1)),
    (5, Told::Kept(1)),
    (6, Told::Kept(1)),
    (7, Told::Kept(1)),
    (8, Told::Kept(1)),
    (9, Told::Kept(1)),
];

#[rattlefmt::skip]
pub const ROWS: &[Row] = &[
    Row {
        blocks: &[],
        came: &[],
        order: &[0],
        waiting: 0,
        said: &[(0, 0, Word::Same), (0, 1, Word::Absent), (1, 1, Word::Absent)],
    },
    Row {
        blocks: TWO,
        came: &[(1, Told::Kept(1)), (2, Told::Kept(1))],
        order: &[0, 1, 2],
        waiting: 0,
        said: &[(1, 2, Word::Tie)],
    },
    Row {
        blocks: THREE,
        came: &[(1, Told::Kept(1)), (2, Told::Kept(1)), (3, Told::Kept(1))],
        order: &[0, 1, 2, 3],
        waiting: 0,
        said: &[
            (0, 1, Word::Before), (0, 2, Word::Before), (0, 3, Word::Before),
            (1, 2, Word::Before), (1, 3, Word::Before), (2, 3, Word::After),
        ],
    },
    // 2 and the two blocks on it outweigh 1 and the block on that.
    Row {
        blocks: FIVE,
        came: &[(1, Told::Kept(1)), (2, Told::Kept(1)), (3, Told::Kept(1)), (4, Told::Kept(1)), (5, Told::Kept(1))],
        order: &[0, 1, 2, 3, 4, 5],
        waiting: 0,
        said: &[(1, 2, Word::After)],
    },
    Row {
        blocks: CHAIN,
        came: &[(1, Told::Kept(1)), (2, Told::Kept(1))],
        order: &[0, 1, 2],
        waiting: 0,
        said: &[(1, 2, Word::Before), (0, 1, Word::Before), (1, 1, Word::Same)],
    },
    // A voter that finds a tie in its past keeps it.
    Row {
        blocks: DIAMOND,
        came: &[(1, Told::Kept(1)), (2, Told::Kept(1)), (3, Told::Kept(1))],
        order: &[0, 1, 2, 3],
        waiting: 0,
        said: &[(1, 2, Word::Tie)],
    },
    // No order of the three agrees with all the words.
    Row {
        blocks: CYCLE,
        came: ONE_BY_ONE,
        order: &[0, 1, 2, 3, 4, 5, 6, 7, 8, 9],
        waiting: 0,
        said: &[(1, 2, Word::Before), (2, 3, Word::Before), (3, 1, Word::Before)],
    },
    // A child before its parent.
    Row {
        blocks: CHAIN,
        came: &[(2, Told::Held)],
        order: &[0],
        waiting: 1,
        said: &[(0, 2, Word::Absent), (0, 1, Word::Absent), (2, 2, Word::Absent)],
    },
    Row {
        blocks: CHAIN,
        came: &[(2, Told::Held), (2, Told::Known), (1, Told::Kept(2)), (1, Told::Known), (2, Told::Known)],
        order: &[0, 1, 2],
        waiting: 0,
        said: &[(1, 2, Word::Before), (0, 2, Word::Before), (2, 2, Word::Same)],
    },
    // Two missing parents.
    Row {
        blocks: DIAMOND,
        came: &[(3, Told::Held), (1, Told::Kept(1)), (2, Told::Kept(2))],
        order: &[0, 1, 2, 3],
        waiting: 0,
        said: &[(1, 2, Word::Tie), (1, 3, Word::Before)],
    },
    // A block that waits has no vote.
    Row {
        blocks: CYCLE,
        came: &[(1, Told::Kept(1)), (2, Told::Kept(1)), (5, Told::Held), (3, Told::Kept(1))],
        order: &[0, 1, 2, 3],
        waiting: 1,
        said: &[(1, 2, Word::Tie), (2, 5, Word::Absent)],
    },
    // The present blocks stand in the order in which they became present.
    Row {
        blocks: LATE,
        came: &[(2, Told::Held), (3, Told::Kept(1)), (4, Told::Held), (1, Told::Kept(2))],
        order: &[0, 3, 1, 2],
        waiting: 1,
        said: &[(1, 2, Word::Before), (4, 4, Word::Absent)],
    },
];
