//! What a purse holds as blocks come and transactions are accepted and taken back, worked out by hand
//! from the rules.

use crate::payments::{ALICE, BOB, CAROL, DAVE, EVE};
use sp_carry::Flip;

/// An owner, what is left under their lock, and the outputs there that are unspent, each by the
/// number of its payment and its place.
pub type Held = (u8, u128, &'static [(usize, u8)]);

/// Blocks by the payments that they carry, then the transactions that turn, numbered from 0 in the
/// order in which they came. Then each lock that an output has, in the order of their first outputs,
/// and what it has.
#[derive(Clone, Copy)]
pub struct Step {
    pub carried: &'static [&'static [usize]],
    pub flips: &'static [Flip],
    pub held: &'static [Held],
}

/// The steps of a new purse, for each of these.
#[rattlefmt::skip]
pub const PURSES: &[&[Step]] = &[
    // A payment comes, is accepted and is taken back. A new transaction isn't accepted, and a flip
    // that says what is so changes nothing.
    &[
        Step { carried: &[], flips: &[], held: &[] },
        Step { carried: &[&[0]], flips: &[], held: &[(ALICE, 0, &[])] },
        Step { carried: &[], flips: &[Flip { tx: 0, now: true }], held: &[(ALICE, 100, &[(0, 0)])] },
        Step { carried: &[&[1]], flips: &[], held: &[(ALICE, 100, &[(0, 0)]), (BOB, 0, &[])] },
        Step {
            carried: &[],
            flips: &[Flip { tx: 1, now: true }],
            held: &[(ALICE, 0, &[]), (BOB, 100, &[(1, 0)])],
        },
        Step {
            carried: &[],
            flips: &[Flip { tx: 1, now: true }, Flip { tx: 0, now: true }],
            held: &[(ALICE, 0, &[]), (BOB, 100, &[(1, 0)])],
        },
        Step {
            carried: &[],
            flips: &[Flip { tx: 1, now: false }],
            held: &[(ALICE, 100, &[(0, 0)]), (BOB, 0, &[])],
        },
        Step {
            carried: &[],
            flips: &[Flip { tx: 0, now: true }, Flip { tx: 1, now: false }],
            held: &[(ALICE, 100, &[(0, 0)]), (BOB, 0, &[])],
        },
        Step {
            carried: &[],
            flips: &[Flip { tx: 0, now: false }],
            held: &[(ALICE, 0, &[]), (BOB, 0, &[])],
        },
    ],
    // Flips come in descending order, and one transaction turns twice.
    &[
        Step {
            carried: &[&[0], &[1], &[3]],
            flips: &[Flip { tx: 2, now: true }, Flip { tx: 1, now: true }, Flip { tx: 0, now: true }],
            held: &[(ALICE, 0, &[]), (BOB, 0, &[]), (DAVE, 100, &[(3, 0)])],
        },
        Step {
            carried: &[],
            flips: &[Flip { tx: 2, now: false }, Flip { tx: 1, now: false }],
            held: &[(ALICE, 100, &[(0, 0)]), (BOB, 0, &[]), (DAVE, 0, &[])],
        },
        Step {
            carried: &[],
            flips: &[Flip { tx: 1, now: true }, Flip { tx: 0, now: false }],
            held: &[(ALICE, 0, &[]), (BOB, 100, &[(1, 0)]), (DAVE, 0, &[])],
        },
        Step {
            carried: &[],
            flips: &[Flip { tx: 1, now: false }, Flip { tx: 1, now: true }, Flip { tx: 0, now: true }],
            held: &[(ALICE, 0, &[]), (BOB, 100, &[(1, 0)]), (DAVE, 0, &[])],
        },
        Step {
            carried: &[],
            flips: &[Flip { tx: 1, now: true }, Flip { tx: 1, now: false }],
            held: &[(ALICE, 100, &[(0, 0)]), (BOB, 0, &[]), (DAVE, 0, &[])],
        },
    ],
    // Two that are accepted spend one output. It stays spent until both are taken back.
    &[
        Step {
            carried: &[&[0], &[1], &[2]],
            flips: &[Flip { tx: 0, now: true }, Flip { tx: 1, now: true }, Flip { tx: 2, now: true }],
            held: &[(ALICE, 0, &[]), (BOB, 100, &[(1, 0)]), (CAROL, 100, &[(2, 0)])],
        },
        Step {
            carried: &[],
            flips: &[Flip { tx: 1, now: false }],
            held: &[(ALICE, 0, &[]), (BOB, 0, &[]), (CAROL, 100, &[(2, 0)])],
        },
        Step {
            carried: &[],
            flips: &[Flip { tx: 2, now: false }],
            held: &[(ALICE, 100, &[(0, 0)]), (BOB, 0, &[]), (CAROL, 0, &[])],
        },
    ],
    // Two that are accepted spend an output that comes later.
    &[
        Step {
            carried: &[&[1], &[2]],
            flips: &[Flip { tx: 0, now: true }, Flip { tx: 1, now: true }],
            held: &[(BOB, 100, &[(1, 0)]), (CAROL, 100, &[(2, 0)])],
        },
        Step {
            carried: &[&[0]],
            flips: &[],
            held: &[(BOB, 100, &[(1, 0)]), (CAROL, 100, &[(2, 0)]), (ALICE, 0, &[])],
        },
        Step {
            carried: &[],
            flips: &[Flip { tx: 2, now: true }],
            held: &[(BOB, 100, &[(1, 0)]), (CAROL, 100, &[(2, 0)]), (ALICE, 0, &[])],
        },
        Step {
            carried: &[],
            flips: &[Flip { tx: 0, now: false }],
            held: &[(BOB, 0, &[]), (CAROL, 100, &[(2, 0)]), (ALICE, 0, &[])],
        },
        Step {
            carried: &[],
            flips: &[Flip { tx: 1, now: false }],
            held: &[(BOB, 0, &[]), (CAROL, 0, &[]), (ALICE, 100, &[(0, 0)])],
        },
    ],
    // Two outputs of one transaction have one lock, and one of them is spent.
    &[
        Step {
            carried: &[&[0], &[29]],
            flips: &[Flip { tx: 0, now: true }, Flip { tx: 1, now: true }],
            held: &[(ALICE, 0, &[]), (BOB, 70, &[(29, 0), (29, 2)]), (CAROL, 30, &[(29, 1)])],
        },
        Step {
            carried: &[&[30]],
            flips: &[],
            held: &[(ALICE, 0, &[]), (BOB, 70, &[(29, 0), (29, 2)]), (CAROL, 30, &[(29, 1)]), (DAVE, 0, &[])],
        },
        Step {
            carried: &[],
            flips: &[Flip { tx: 2, now: true }],
            held: &[(ALICE, 0, &[]), (BOB, 60, &[(29, 0)]), (CAROL, 30, &[(29, 1)]), (DAVE, 10, &[(30, 0)])],
        },
        Step {
            carried: &[],
            flips: &[Flip { tx: 1, now: false }],
            held: &[(ALICE, 100, &[(0, 0)]), (BOB, 0, &[]), (CAROL, 0, &[]), (DAVE, 10, &[(30, 0)])],
        },
    ],
    // Outputs of three transactions have one lock.
    &[
        Step {
            carried: &[&[22, 23, 24]],
            flips: &[Flip { tx: 0, now: true }, Flip { tx: 1, now: true }, Flip { tx: 2, now: true }],
            held: &[(ALICE, 60, &[(22, 0), (23, 0), (24, 0)])],
        },
        Step {
            carried: &[&[25, 26, 27], &[28]],
            flips: &[Flip { tx: 3, now: true }, Flip { tx: 4, now: true }, Flip { tx: 5, now: true }],
            held: &[(ALICE, 0, &[]), (DAVE, 60, &[(25, 0), (26, 0), (27, 0)]), (EVE, 0, &[])],
        },
        Step {
            carried: &[],
            flips: &[Flip { tx: 5, now: false }, Flip { tx: 6, now: true }],
            held: &[(ALICE, 0, &[]), (DAVE, 30, &[(25, 0), (26, 0)]), (EVE, 30, &[(28, 0)])],
        },
    ],
    // A transaction in two blocks counts once.
    &[
        Step {
            carried: &[&[0], &[1], &[1]],
            flips: &[Flip { tx: 0, now: true }, Flip { tx: 1, now: true }],
            held: &[(ALICE, 0, &[]), (BOB, 100, &[(1, 0)])],
        },
        Step {
            carried: &[&[2]],
            flips: &[Flip { tx: 2, now: true }, Flip { tx: 1, now: false }],
            held: &[(ALICE, 0, &[]), (BOB, 0, &[]), (CAROL, 100, &[(2, 0)])],
        },
    ],
];
