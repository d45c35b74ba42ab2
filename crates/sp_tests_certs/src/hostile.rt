//! Certificates that show nothing: worlds that are missing, too many or out of order, fields that lie, and
//! votes that nobody gave.

use crate::bytes::Told::{self, Malformed, Pair, Parent, Shown, Sum, Truncated, Vote, World};
use crate::bytes::{said, written};
use crate::engine::certificate;
use crate::rows::holds;
use sp_fixtures::Numbered;
use sp_model::Profile;
use std::alloc::Global;
use std::test::Fail;

/// How long the bytes are, of which the first are those of the certificate and others are 0, then some
/// places with the bytes there, and what is said.
type Row = (usize, &'static [(usize, u8)], Told);

/// Blocks 1 and 2 stand on genesis, 3 on both, and 4 on 3. The blocks' lengths stand at 11, 35, 91, 147 and
/// 235, the two ids from 291 and 323 on, the sign at 355, the number of worlds at 356. The worlds of all
/// blocks, of 3 and of 4 begin at 358, 365 and 372, each a number and five votes: 0, -1, 1, 0, 0.
#[rattlefmt::skip]
const ROWS: &[Row] = &[
    (379, &[], Shown),
    // A world twice, out of order, missing, or one more.
    (379, &[(372, 3)], World(2)), (379, &[(365, 4)], World(1)), (379, &[(365, 4), (372, 3)], World(1)),
    (379, &[(365, 255), (366, 255)], World(1)), (379, &[(358, 3), (359, 0)], World(0)),
    (379, &[(372, 9)], World(2)), (379, &[(373, 255)], World(2)),
    (358, &[(356, 0)], Malformed(356)), (365, &[(356, 1)], World(1)), (372, &[(356, 2)], World(2)),
    (386, &[(356, 4), (379, 4)], World(3)), (386, &[(356, 4)], World(3)),
    // Of more worlds than stand there, the bytes end; there are no more than 512.
    (379, &[(356, 4)], Truncated(379)), (379, &[(356, 255), (357, 255)], Malformed(356)),
    (379, &[(356, 0), (357, 2)], Truncated(379)), (379, &[(356, 1), (357, 2)], Malformed(356)),
    // Lengths beyond the end, and above the longest.
    (379, &[(235, 0), (237, 1)], Truncated(379)), (379, &[(235, 1), (237, 1)], Malformed(235)),
    (379, &[(238, 255)], Malformed(235)), (379, &[(9, 0), (10, 2)], Malformed(291)),
    // Bytes that are no block, a genesis block among the others, and others in its stead.
    (379, &[(239, 2)], Malformed(239)), (379, &[(234, 1)], Malformed(151)),
    (379, &[(32, 1)], Malformed(15)), (379, &[(56, 0)], Malformed(39)),
    // A parent that isn't there, and a block twice.
    (379, &[(257, 0)], Parent(4)), (379, &[(96, 1)], Parent(2)),
    // Ids that no block has.
    (379, &[(291, 0)], Pair), (379, &[(323, 0)], Pair),
    // Votes that no rule gives, in each world, first where they stand and then where they are summed.
    (379, &[(360, 0)], Vote(0, 0)), (379, &[(361, 2)], Vote(0, 0)), (379, &[(363, 0)], Vote(0, 0)),
    (379, &[(360, 0), (363, 0)], Vote(0, 3)), (379, &[(367, 0)], Vote(0, 3)),
    (379, &[(370, 2)], Vote(0, 3)), (379, &[(371, 0)], Vote(0, 3)), (379, &[(374, 0)], Vote(0, 4)),
    (379, &[(378, 2)], Vote(0, 4)), (379, &[(370, 2), (371, 0)], Vote(1, 3)),
    (379, &[(368, 2), (370, 0), (371, 0)], Vote(1, 0)), (379, &[(377, 2), (378, 0)], Vote(2, 0)),
    // Votes outside -1 to 1.
    (379, &[(360, 3)], Malformed(360)), (379, &[(378, 255)], Malformed(378)),
    // Another profile has other votes: 3 would have to settle its tie.
    (379, &[(8, 2)], Vote(0, 3)), (379, &[(8, 0)], Malformed(8)),
    // Another sign than that of the sum.
    (379, &[(355, 0)], Sum), (379, &[(355, 2)], Sum),
    // A byte behind the last field.
    (380, &[], Malformed(379)),
];

/// The bytes of a row.
fn changed(alloc: Global, whole: &[u8], row: &Row) -> Result<Vec<u8>, Fail> {
    let mut bytes = Vec::new(alloc);
    for place in 0..row.0 {
        bytes.push(whole.get(place).copied().unwrap_or(0))?;
    }
    for (place, byte) in row.1 {
        match bytes.get_mut(*place) {
            Some(there) => *there = *byte,
            None => return Err("no such place".into()),
        }
    }
    Ok(bytes)
}

#[test]
fn certificates_that_show_nothing(rt: HostRuntime) -> Result<(), Fail> {
    let alloc = rt.alloc();
    let blocks = Numbered::of(alloc, &[&[0], &[0], &[1, 2], &[3]])?;
    let whole = written(alloc, &certificate(alloc, Profile::One, &blocks, 1, 2)?)?;
    holds(&rt, ROWS.len(), whole.len() == 379);
    for (place, row) in ROWS.iter().enumerate() {
        let bytes = changed(alloc, &whole, row)?;
        holds(&rt, place, said(alloc, &bytes)? == row.2);
    }
    Ok(())
}
