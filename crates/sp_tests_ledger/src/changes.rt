//! What an update of acceptance is told: the pairs of blocks on which the votes turned, by two
//! matrices of plain votes, and the number of the carriers that were decided on.

ghost use Rattle.std.specs.Prelude.{◌≡◌, ◌≢◌, ◌≤◌, ◌<◌, ℕ, length, Contains, IfOk, OnOk};
ghost use Rattle.sp_dag.specs.Numbered.{graph_of};
ghost use Rattle.sp_plain.specs.Virts.{entry, HasVirts};
ghost use Rattle.sp_accept.specs.Changes.{TellsChanges};
ghost use Rattle.sp_accept.specs.Changes as asked;
ghost use Rattle.sp_engine.specs.Engine.{numbers};

use crate::voted::votes_of_first;
use sp_carry::Carriers;
use sp_ids::Memory;
use sp_plain::{Matrix, Plain};
use std::alloc::Global;

/// Adds the pairs of a block and a lower one on which two matrices differ.
fn add_differing(
    one: &Matrix,
    other: &Matrix,
    y: u16,
    pairs: &mut Vec<(u16, u16)>,
) -> Result<(), Memory>
    requires one { y < one.now.width }
    requires other { y < other.now.width }
    ensures there { OnOk result ((x : ℕ) → x < y →
        entry one.now x y ≢ entry other.now x y → Contains pairs.new.items (x, y)) }
    ensures stay { OnOk result ((pair : ℕ × ℕ) →
        Contains pairs.old.items pair → Contains pairs.new.items pair) }
{
    'lower: for x in 0..y {
        if one.vote(x, y) != other.vote(x, y) {
            pairs.push((x, y))?;
        }
    }
    Ok(())
}

/// Some pairs, and then those of the first blocks on which two matrices differ.
fn differing(
    alloc: Global,
    one: &Matrix,
    other: &Matrix,
    count: u16,
    others: &[(u16, u16)],
) -> Result<Vec<(u16, u16)>, Memory>
    requires one { count ≤ one.now.width }
    requires other { count ≤ other.now.width }
    ensures { IfOk result (λ pairs. (x y : ℕ) → x < y → y < count →
        entry one.now x y ≢ entry other.now x y → Contains pairs.items (x, y)) }
{
    let mut pairs = Vec::from_slice(alloc, others)?;
    'higher: for y in 0..count {
        add_differing(one, other, y, &mut pairs)?;
    }
    Ok(pairs)
}

/// Some pairs, and then those of the first blocks on which their votes aren't those of all blocks.
pub fn changed(
    alloc: Global,
    plain: &mut Plain,
    votes: &Matrix,
    count: u16,
    others: &[(u16, u16)],
) -> Result<Vec<(u16, u16)>, Memory>
    requires few { count ≤ length plain.old.parents }
    requires votes { HasVirts (graph_of plain.old) (numbers plain.old)
        (length plain.old.parents) votes.now }
    ensures same { plain.new ≡ plain.old }
    ensures told { IfOk result (λ pairs. TellsChanges plain.old count pairs.items) }
{
    let before = votes_of_first(plain, count)?;
    let pairs = differing(alloc, &before, votes, count, others)?;
    Ok(pairs)
}

/// How many carriers the first blocks have.
pub fn carriers_below(carriers: &Carriers, count: u16) -> u32
    ensures { result ≡ asked.carriers_below carriers.now.rows count }
{
    let mut found = 0u32;
    'carriers: for c in 0..carriers.carrier_count() {
        if carriers.carrier(c).block < count {
            found += 1;
        }
    }
    found
}
