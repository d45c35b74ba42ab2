//! Certificates of graphs whose votes were worked out by hand, case by case.

use crate::engine::{certificate, engine_of};
use crate::rows::holds;
use sp_cert::{Cert, CertifyFault, certify, check};
use sp_fixtures::Numbered;
use sp_model::Profile;
use std::alloc::Global;
use std::test::Fail;

/// Blocks by number, each with the numbers of its parents; genesis is number 0 and isn't listed. The
/// salt of each is its number.
type Graph = &'static [&'static [usize]];

/// A profile, a graph, two of its blocks, the sign, and each world's number with its votes.
type Row = (
    Profile,
    Graph,
    usize,
    usize,
    i8,
    &'static [(u16, &'static [i8])],
);

/// The number of the world of all blocks.
const ALL: u16 = 65_535;

const ONE: Profile = Profile::One;

const TWO: Profile = Profile::Two;

#[rattlefmt::skip]
const ROWS: &[Row] = &[
    (ONE, &[&[0], &[0]], 1, 2, 0, &[(ALL, &[0, -1, 1])]),
    (ONE, &[&[0], &[0]], 2, 1, 0, &[(ALL, &[0, 1, -1])]),
    (ONE, &[&[0], &[0], &[1]], 1, 2, -1, &[(ALL, &[-1, -1, 1, -1])]),
    (ONE, &[&[0], &[0], &[1], &[2], &[2]], 1, 2, 1, &[(ALL, &[1, -1, 1, -1, 1, 1])]),
    // Genesis votes for its child, and the child for it: the first two cases.
    (ONE, &[&[0], &[1]], 0, 2, -1, &[(ALL, &[-1, -1, -1])]),
    (ONE, &[&[0], &[1]], 2, 0, 1, &[(ALL, &[1, 1, 1])]),
    (ONE, &[&[0], &[0], &[1, 2]], 1, 2, 0, &[(ALL, &[0, -1, 1, 0]), (3, &[0, -1, 1, 0])]),
    (ONE, &[&[0], &[0], &[1, 2], &[3]], 1, 2, 0,
        &[(ALL, &[0, -1, 1, 0, 0]), (3, &[0, -1, 1, 0, 0]), (4, &[0, -1, 1, 0, 0])]),
    // Where no block has both in its past, the profile plays no part.
    (TWO, &[&[0], &[0]], 1, 2, 0, &[(ALL, &[0, -1, 1])]),
    // Block 3 finds a tie in its past, and settles it for block 1, whose salt is lower.
    (TWO, &[&[0], &[0], &[1, 2]], 1, 2, -1, &[(ALL, &[-1, -1, 1, -1]), (3, &[0, -1, 1, 0])]),
    (TWO, &[&[0], &[0], &[1, 2]], 2, 1, 1, &[(ALL, &[1, 1, -1, 1]), (3, &[0, 1, -1, 0])]),
    // Block 4 finds none in its own.
    (TWO, &[&[0], &[0], &[1, 2], &[3]], 1, 2, -1,
        &[(ALL, &[-1, -1, 1, -1, -1]), (3, &[0, -1, 1, 0, 0]), (4, &[-1, -1, 1, -1, 0])]),
];

fn is_right(alloc: Global, cert: &Cert, row: &Row) -> Result<bool, Fail> {
    let (profile, _, _, _, sign, worlds) = *row;
    let told = cert.worlds.as_slice();
    let mut same = cert.profile == profile && cert.sign == sign && told.len() == worlds.len();
    for (world, (number, votes)) in told.iter().zip(worlds) {
        same = same && world.number == *number && world.votes.as_slice() == *votes;
    }
    Ok(same && check(alloc, cert) == Ok(()))
}

fn row_holds(alloc: Global, row: &Row) -> Result<bool, Fail> {
    let blocks = Numbered::of(alloc, row.1)?;
    let cert = certificate(alloc, row.0, &blocks, row.2, row.3)?;
    let right = is_right(alloc, &cert, row);
    drop(cert);
    right
}

#[test]
fn certificates_worked_out_by_hand(rt: HostRuntime) -> Result<(), Fail> {
    for (place, row) in ROWS.iter().enumerate() {
        holds(&rt, place, row_holds(rt.alloc(), row)?);
    }
    Ok(())
}

/// Whether there is no certificate of the blocks of these numbers.
fn is_no_pair(alloc: Global, x: usize, y: usize) -> Result<bool, Fail> {
    let blocks = Numbered::of(alloc, &[&[0]])?;
    let engine = engine_of(alloc, ONE, &blocks)?;
    match certify(alloc, &engine, &blocks.id(x), &blocks.id(y)) {
        Err(CertifyFault::NoPair) => Ok(true),
        _ => Ok(false),
    }
}

#[test]
fn no_certificate_of_one_block(rt: HostRuntime) -> Result<(), Fail> {
    for (place, (x, y)) in [(1, 1), (1, 7), (7, 1), (7, 7)].iter().enumerate() {
        holds(&rt, place, is_no_pair(rt.alloc(), *x, *y)?);
    }
    Ok(())
}
