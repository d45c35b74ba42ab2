//! Transactions that turn as blocks come, worked out by hand from the rules.

/// The parents of a block and the payments that it carries, all by number.
pub type Laid = (&'static [u8], &'static [usize]);

/// Blocks that come, each with its parents and the payments that it carries; the transactions that
/// turn then, by the order in which they first came, each with its new state; and which carriers and
/// which transactions are accepted.
#[derive(Clone, Copy)]
pub struct Step {
    pub blocks: &'static [Laid],
    pub turned: &'static [(u32, bool)],
    pub carriers: &'static [bool],
    pub txs: &'static [bool],
}

const Y: bool = true;

const N: bool = false;

/// The steps of each scene. Genesis, number 0, carries payment 0 alone.
#[rattlefmt::skip]
pub const SCENES: &[&[Step]] = &[
    // 1 and 2 spend one output in blocks side by side. A tie accepts neither, block 3 puts block 1
    // first, and 4 and 5 put block 2 first; 6 and 7 turn it back.
    &[
        Step { blocks: &[], turned: &[(0, Y)], carriers: &[Y], txs: &[Y] },
        Step {
            blocks: &[(&[0], &[1]), (&[0], &[2])],
            turned: &[],
            carriers: &[Y, N, N],
            txs: &[Y, N, N],
        },
        Step { blocks: &[(&[1], &[])], turned: &[(1, Y)], carriers: &[Y, Y, N], txs: &[Y, Y, N] },
        Step { blocks: &[(&[2], &[])], turned: &[(1, N)], carriers: &[Y, N, N], txs: &[Y, N, N] },
        Step { blocks: &[(&[2], &[])], turned: &[(2, Y)], carriers: &[Y, N, Y], txs: &[Y, N, Y] },
        Step { blocks: &[(&[1], &[])], turned: &[(2, N)], carriers: &[Y, N, N], txs: &[Y, N, N] },
        Step { blocks: &[(&[6], &[])], turned: &[(1, Y)], carriers: &[Y, Y, N], txs: &[Y, Y, N] },
    ],
    // All of these at once.
    &[
        Step {
            blocks: &[(&[0], &[1]), (&[0], &[2])],
            turned: &[(0, Y)],
            carriers: &[Y, N, N],
            txs: &[Y, N, N],
        },
        Step { blocks: &[(&[1], &[])], turned: &[(1, Y)], carriers: &[Y, Y, N], txs: &[Y, Y, N] },
        Step {
            blocks: &[(&[2], &[]), (&[2], &[])],
            turned: &[(1, N), (2, Y)],
            carriers: &[Y, N, Y],
            txs: &[Y, N, Y],
        },
        Step {
            blocks: &[(&[1], &[]), (&[6], &[])],
            turned: &[(1, Y), (2, N)],
            carriers: &[Y, Y, N],
            txs: &[Y, Y, N],
        },
    ],
    // What spends an output turns with it: 3 spends what 1 pays.
    &[
        Step {
            blocks: &[(&[0], &[1]), (&[0], &[2]), (&[1], &[3])],
            turned: &[(0, Y), (1, Y), (3, Y)],
            carriers: &[Y, Y, N, Y],
            txs: &[Y, Y, N, Y],
        },
        Step {
            blocks: &[(&[2], &[]), (&[2], &[])],
            turned: &[(1, N), (2, Y), (3, N)],
            carriers: &[Y, N, Y, N],
            txs: &[Y, N, Y, N],
        },
    ],
    // A chain of spends in blocks 1, 3, 4 and 5, whose first one has a rival in block 2.
    &[
        Step {
            blocks: &[(&[0], &[7]), (&[0], &[1])],
            turned: &[(0, Y)],
            carriers: &[Y, N, N],
            txs: &[Y, N, N],
        },
        Step {
            blocks: &[(&[1], &[8])],
            turned: &[(1, Y), (3, Y)],
            carriers: &[Y, Y, N, Y],
            txs: &[Y, Y, N, Y],
        },
        Step {
            blocks: &[(&[3], &[9]), (&[4], &[10])],
            turned: &[(4, Y), (5, Y)],
            carriers: &[Y, Y, N, Y, Y, Y],
            txs: &[Y, Y, N, Y, Y, Y],
        },
        // Five blocks have block 2 in their past or are it, and four block 1.
        Step {
            blocks: &[(&[2], &[]), (&[2], &[]), (&[2], &[]), (&[2], &[])],
            turned: &[(1, N), (2, Y), (3, N), (4, N), (5, N)],
            carriers: &[Y, N, Y, N, N, N],
            txs: &[Y, N, Y, N, N, N],
        },
        Step {
            blocks: &[(&[5], &[]), (&[5], &[11])],
            turned: &[(1, Y), (2, N), (3, Y), (4, Y), (5, Y), (6, Y)],
            carriers: &[Y, Y, N, Y, Y, Y, Y],
            txs: &[Y, Y, N, Y, Y, Y, Y],
        },
    ],
    // A rival comes when its payment is accepted already. One on its block decides, and one more
    // carrier of the rival, which loses too, changes nothing.
    &[
        Step { blocks: &[(&[0], &[1])], turned: &[(0, Y), (1, Y)], carriers: &[Y, Y], txs: &[Y, Y] },
        Step { blocks: &[(&[0], &[2])], turned: &[(1, N)], carriers: &[Y, N, N], txs: &[Y, N, N] },
        Step { blocks: &[(&[1], &[])], turned: &[(1, Y)], carriers: &[Y, Y, N], txs: &[Y, Y, N] },
        Step { blocks: &[(&[0], &[2])], turned: &[], carriers: &[Y, Y, N, N], txs: &[Y, Y, N] },
    ],
    // A block on both that tie carries 2 again: that carrier is accepted, until what stands below it
    // is.
    &[
        Step {
            blocks: &[(&[0], &[1]), (&[0], &[2])],
            turned: &[(0, Y)],
            carriers: &[Y, N, N],
            txs: &[Y, N, N],
        },
        Step { blocks: &[(&[1, 2], &[2])], turned: &[(2, Y)], carriers: &[Y, N, N, Y], txs: &[Y, N, Y] },
        Step {
            blocks: &[(&[1], &[])],
            turned: &[(1, Y), (2, N)],
            carriers: &[Y, Y, N, N],
            txs: &[Y, Y, N],
        },
    ],
    // There, a block on the other one has both carriers of 2 accepted: a carrier turns, and its
    // transaction doesn't.
    &[
        Step {
            blocks: &[(&[0], &[1]), (&[0], &[2]), (&[1, 2], &[2])],
            turned: &[(0, Y), (2, Y)],
            carriers: &[Y, N, N, Y],
            txs: &[Y, N, Y],
        },
        Step { blocks: &[(&[2], &[])], turned: &[], carriers: &[Y, N, Y, Y], txs: &[Y, N, Y] },
    ],
    // What isn't sound hinders nothing, whichever block comes first: a wrong preimage, and more than
    // there is.
    &[
        Step {
            blocks: &[(&[0], &[1]), (&[0], &[4])],
            turned: &[(0, Y), (1, Y)],
            carriers: &[Y, Y, N],
            txs: &[Y, Y, N],
        },
        Step {
            blocks: &[(&[2], &[5]), (&[2], &[])],
            turned: &[],
            carriers: &[Y, Y, N, N],
            txs: &[Y, Y, N, N],
        },
    ],
    // A new carrier of an old transaction, whose source doesn't stand below the old one.
    &[
        Step {
            blocks: &[(&[0], &[1]), (&[0], &[3])],
            turned: &[(0, Y), (1, Y)],
            carriers: &[Y, Y, N],
            txs: &[Y, Y, N],
        },
        Step { blocks: &[(&[1, 2], &[3])], turned: &[(2, Y)], carriers: &[Y, Y, N, Y], txs: &[Y, Y, Y] },
    ],
    // 17 pays two outputs. Block 2 spends both, block 3 above it the first one alone, and block 4
    // beside them the second one alone. When block 4 comes first, 18 falls, and what it stood in the
    // way of rises.
    &[
        Step {
            blocks: &[(&[0], &[17]), (&[1], &[18]), (&[2], &[31]), (&[1], &[20])],
            turned: &[(0, Y), (1, Y), (2, Y)],
            carriers: &[Y, Y, Y, N, N],
            txs: &[Y, Y, Y, N, N],
        },
        Step {
            blocks: &[(&[4], &[]), (&[4], &[])],
            turned: &[(2, N), (3, Y), (4, Y)],
            carriers: &[Y, Y, N, Y, Y],
            txs: &[Y, Y, N, Y, Y],
        },
    ],
    // 1, 2 and 7 spend one output: 2 above 1, and 7 in block 3, beside both. Block 3 comes first when
    // two stand on it.
    &[
        Step {
            blocks: &[(&[0], &[1]), (&[1], &[2]), (&[0], &[7])],
            turned: &[(0, Y), (1, Y)],
            carriers: &[Y, Y, N, N],
            txs: &[Y, Y, N, N],
        },
        Step {
            blocks: &[(&[3], &[]), (&[3], &[])],
            turned: &[(1, N), (3, Y)],
            carriers: &[Y, N, N, Y],
            txs: &[Y, N, N, Y],
        },
    ],
];
