//! Sums that grow with a view, apart from an engine: their signs are the plain votes of the members after each
//! block, and the pairs that they say turned are those on which the plain votes are others.

ghost use Rattle.std.specs.Prelude.{◌≡◌, ◌≤◌, length, IfOk, OnOk};
ghost use Rattle.sp_dag.specs.Numbered.{pairs_of};
ghost use Rattle.sp_tests_views.specs.Voting.{CanVote, IsBased};
ghost use Rattle.sp_tests_views.specs.Summing.{IsSummed};

use crate::based::Based;
use crate::rows::holds;
use crate::signs::{Votes, has_votes, plain_of};
use sp_dag::Dag;
use sp_rows::RowPool;
use sp_view::{Saved, Sums, View};
use std::alloc::Global;
use std::test::Fail;

/// A view of some blocks of a graph, and the sums of their votes.
#[derive(Drop)]
struct Summed {
    pool: RowPool,
    view: View,
    sums: Sums,
}

impl Summed {
    /// No blocks.
    fn start(based: &Based) -> Result<Summed, Fail>
        ensures { IfOk result (λ summed. IsSummed based.now.dag summed.pool summed.view summed.sums) }
    {
        // Tells the proof that the blocks stand in order.
        let _blocks = based.dag.len();
        let mut sums = Sums::new(based.alloc);
        sums.grow(&based.dag)?;
        Ok(Summed {
            pool: RowPool::new(based.alloc),
            view: View::empty(based.alloc),
            sums,
        })
    }

    /// Adds a block, if the view has its past and not the block.
    fn join(&mut self, based: &Based, b: u16) -> Result<(), Fail>
        requires based { IsBased based.now.dag based.now.frozen }
        requires summed { IsSummed based.now.dag self.old.pool self.old.view self.old.sums }
        ensures { OnOk result (IsSummed based.now.dag self.new.pool self.new.view self.new.sums) }
    {
        if b >= based.dag.len() || self.pool.live() >= 1 << 20 {
            return Err("no such block, or too many rows".into());
        }
        if self.view.members().test(b) || !based.dag.past(b).within(self.view.members()) {
            return Err("a member, or above other blocks".into());
        }
        // Nothing is put back here.
        let mut saved = Saved::new(based.alloc);
        self.view.add_with_sums(
            &based.dag,
            &based.frozen,
            &mut self.pool,
            &mut self.sums,
            &mut saved,
            b,
        )?;
        Ok(())
    }
}

/// Whether the signs of sums are these votes, where there are votes.
pub(crate) fn has_signs(sums: &Sums, dag: &Dag, votes: &[Option<i8>]) -> bool
    requires { length (pairs_of dag.now) ≤ length sums.now }
{
    for pair in 0..dag.pair_count() {
        if let Some(Some(vote)) = votes.get(pair as usize)
            && sums.virtual_vote(pair) != *vote
        {
            return false;
        }
    }
    true
}

/// The vote on a pair, 0 where there is none.
fn vote_at(votes: &[Option<i8>], pair: u32) -> i8 {
    votes.get(pair as usize).copied().flatten().unwrap_or(0)
}

/// Whether a list has just the pairs, of so many, on which these votes are others, ascending.
fn are_others(listed: &[u32], count: u32, before: &[Option<i8>], after: &[Option<i8>]) -> bool {
    let mut place = 0usize;
    for pair in 0..count {
        if vote_at(before, pair) != vote_at(after, pair) {
            if listed.get(place).copied() != Some(pair) {
                return false;
            }
            place = place.saturating_add(1);
        }
    }
    place == listed.len()
}

/// The plain votes of the members.
fn plain_votes(based: &Based, summed: &Summed) -> Result<Votes, Fail>
    requires based { IsBased based.now.dag based.now.frozen }
    requires summed { IsSummed based.now.dag summed.now.pool summed.now.view summed.now.sums }
{
    Ok(plain_of(
        based.alloc,
        &based.dag,
        &based.frozen,
        &summed.pool,
        &summed.view,
    )?)
}

/// Whether all is right with one block more.
fn is_right_with(based: &Based, summed: &mut Summed, b: u16) -> Result<bool, Fail>
    requires based { IsBased based.now.dag based.now.frozen }
    requires summed { IsSummed based.now.dag summed.old.pool summed.old.view summed.old.sums }
    ensures { OnOk result (IsSummed based.now.dag summed.new.pool summed.new.view summed.new.sums) }
{
    let before = plain_votes(based, summed)?;
    let older = summed.sums.fork()?;
    summed.join(based, b)?;
    let after = plain_votes(based, summed)?;
    let turned = summed.sums.turned(&based.dag, &older)?;
    Ok(
        has_signs(&summed.sums, &based.dag, &after)
            && has_votes(
                &based.dag,
                &based.frozen,
                &summed.pool,
                &summed.view,
                &after,
            )
            && are_others(&turned, based.dag.pair_count(), &before, &after),
    )
}

/// Whether all is right as the blocks of a graph join one by one.
fn is_right(based: &Based) -> Result<bool, Fail>
    requires { IsBased based.now.dag based.now.frozen }
{
    let mut summed = Summed::start(based)?;
    for b in 0..based.dag.len() {
        if !is_right_with(based, &mut summed, b)? {
            return Ok(false);
        }
    }
    Ok(true)
}

/// A graph of which each block has one parent, by the parents of 1, 2 and so on.
fn grown(alloc: Global, parents: &[u8]) -> Result<Based, Fail>
    ensures { IfOk result (λ based. IsBased based.dag based.frozen) }
{
    let mut based = Based::start(alloc)?;
    let mut name = 0u8;
    for parent in parents {
        name = name.saturating_add(1);
        based.grow(name, *parent)?;
    }
    Ok(based)
}

/// The graphs: two chains in turns, one chain after another, and a tree.
pub(crate) const GRAPHS: &[&[u8]] = &[
    &[0, 0, 1, 2, 3, 4, 5, 6],
    &[0, 1, 2, 0, 4, 5, 6],
    &[0, 0, 0, 1, 1, 2, 4, 4, 6, 3],
];

#[test]
fn signs_are_the_plain_votes(rt: HostRuntime) -> Result<(), Fail> {
    for (row, parents) in GRAPHS.iter().enumerate() {
        let based = grown(rt.alloc(), parents)?;
        holds(&rt, row, is_right(&based)?);
    }
    Ok(())
}
