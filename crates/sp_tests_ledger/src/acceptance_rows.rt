//! Blocks that carry payments, and which of these are accepted, worked out by hand from the rules.

/// The parents of a block and the transactions that it carries, all by number.
pub type Laid = (&'static [usize], &'static [usize]);

/// Blocks from number 1 on, the number of those that are present then, with genesis, and each
/// transaction that they carry, in the order of presence, and whether it is accepted. The other
/// transactions are absent.
#[derive(Clone, Copy)]
pub struct Row {
    pub blocks: &'static [Laid],
    pub present: u16,
    pub listed: &'static [(usize, bool)],
}

#[rattlefmt::skip]
pub const ROWS: &[Row] = &[
    Row { blocks: &[], present: 1, listed: &[(0, true)] },
    // A tie rejects both; a block on one decides.
    Row { blocks: &[(&[0], &[1]), (&[0], &[2])], present: 3, listed: &[(0, true), (1, false), (2, false)] },
    Row {
        blocks: &[(&[0], &[1]), (&[0], &[2]), (&[1], &[])],
        present: 4,
        listed: &[(0, true), (1, true), (2, false)],
    },
    // What spends an output falls with it.
    Row {
        blocks: &[(&[0], &[1]), (&[0], &[2]), (&[1], &[3])],
        present: 4,
        listed: &[(0, true), (1, true), (2, false), (3, true)],
    },
    Row {
        blocks: &[(&[0], &[1]), (&[0], &[2]), (&[1], &[3]), (&[2], &[]), (&[2], &[])],
        present: 6,
        listed: &[(0, true), (1, false), (2, true), (3, false)],
    },
    // A conflict above one that is accepted.
    Row { blocks: &[(&[0], &[1]), (&[1], &[2])], present: 3, listed: &[(0, true), (1, true), (2, false)] },
    // A transaction doesn't conflict with itself.
    Row { blocks: &[(&[0], &[1]), (&[0], &[1])], present: 3, listed: &[(0, true), (1, true)] },
    // What isn't sound hinders nothing.
    Row { blocks: &[(&[0], &[1]), (&[0], &[4])], present: 3, listed: &[(0, true), (1, true), (4, false)] },
    Row { blocks: &[(&[0], &[1]), (&[0], &[5])], present: 3, listed: &[(0, true), (1, true), (5, false)] },
    // A carrier above two that tie.
    Row {
        blocks: &[(&[0], &[1]), (&[0], &[2]), (&[1, 2], &[2])],
        present: 4,
        listed: &[(0, true), (1, false), (2, true)],
    },
    // A source must stand in a block below.
    Row { blocks: &[(&[0], &[1, 3])], present: 2, listed: &[(0, true), (1, true), (3, false)] },
    Row { blocks: &[(&[0], &[1, 3]), (&[1], &[3])], present: 3, listed: &[(0, true), (1, true), (3, true)] },
    // A block that spends an output twice is refused.
    Row { blocks: &[(&[0], &[1, 2])], present: 1, listed: &[(0, true)] },
];

#[rattlefmt::skip]
pub const HOSTILE: &[Row] = &[
    // An output that isn't there, and a source that nobody has.
    Row { blocks: &[(&[0], &[6, 21])], present: 2, listed: &[(0, true), (6, false), (21, false)] },
    // A source beside the block, and not below it.
    Row { blocks: &[(&[0], &[1]), (&[0], &[3])], present: 3, listed: &[(0, true), (1, true), (3, false)] },
    Row {
        blocks: &[
            (&[0], &[7]), (&[1], &[8]), (&[2], &[9]), (&[3], &[10]), (&[4], &[11]),
            (&[5], &[12]), (&[6], &[13]), (&[7], &[14]), (&[8], &[15]), (&[9], &[16]),
        ],
        present: 11,
        listed: &[
            (0, true), (7, true), (8, true), (9, true), (10, true), (11, true),
            (12, true), (13, true), (14, true), (15, true), (16, true),
        ],
    },
    // Three carriers of one transaction count once, and the first isn't sound.
    Row {
        blocks: &[(&[0], &[3, 1]), (&[1], &[3]), (&[2], &[3])],
        present: 4,
        listed: &[(0, true), (3, true), (1, true)],
    },
    // Two inputs from one transaction, and one that spends more than both.
    Row { blocks: &[(&[0], &[17]), (&[1], &[18])], present: 3, listed: &[(0, true), (17, true), (18, true)] },
    Row { blocks: &[(&[0], &[17]), (&[1], &[19])], present: 3, listed: &[(0, true), (17, true), (19, false)] },
    // One output in common is a conflict, and what is left over is burnt.
    Row {
        blocks: &[(&[0], &[17]), (&[1], &[18]), (&[1], &[20])],
        present: 4,
        listed: &[(0, true), (17, true), (18, false), (20, false)],
    },
    Row {
        blocks: &[(&[0], &[17]), (&[1], &[19]), (&[1], &[20])],
        present: 4,
        listed: &[(0, true), (17, true), (19, false), (20, true)],
    },
];
