//! What is left under each lock, as a table has it and as an engine or a purse says it: the tests of
//! both compare it here.

use crate::payments::{ALICE, BOB, CAROL, DAVE, EVE};
use sp_ids::Lock;

/// Those whom payments pay.
pub const OWNERS: [u8; 5] = [ALICE, BOB, CAROL, DAVE, EVE];

/// An owner, and what is left under their lock.
pub type Left = (u8, u128);

/// Each lock with what is left under it, in the order in which they were listed, and what is left
/// under each owner's lock, as one asks for it by the lock.
pub struct Said {
    pub listed: Vec<(Lock, u128)>,
    pub asked: Vec<u128>,
}

impl Drop for Said {
    fn drop(self) {
        let Said { listed, asked } = self;
        drop(listed);
        drop(asked);
    }
}

fn are_listed(listed: &[(Lock, u128)], left: &[Left]) -> bool {
    listed.len() == left.len()
        && listed.iter().zip(left).all(|(one, other)| one.0 == Lock::of(&[other.0])
            && one.1 == other.1)
}

/// What a table has of an owner; 0 where it has nothing.
fn left_to(left: &[Left], owner: u8) -> u128 {
    for (one, amount) in left {
        if *one == owner {
            return *amount;
        }
    }
    0
}

fn are_asked(asked: &[u128], left: &[Left]) -> bool {
    asked.len() == OWNERS.len()
        && asked
            .iter()
            .zip(&OWNERS)
            .all(|(amount, owner)| *amount == left_to(left, *owner))
}

/// What is wrong where just these locks have outputs, in this order, and no other owner has anything.
pub fn wrong(said: &Said, left: &[Left]) -> &'static str {
    if !are_listed(&said.listed, left) {
        "listed"
    } else if !are_asked(&said.asked, left) {
        "asked"
    } else {
        ""
    }
}
