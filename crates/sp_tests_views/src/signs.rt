//! What a view says of each pair, and what the plain votes of its members say. Nothing here knows how
//! the view was grown.

ghost use Rattle.sp_plain.specs.Plain.{IsClosed};
ghost use Rattle.std.specs.Prelude.{◌≡◌, length};
ghost use Rattle.sp_dag.specs.Numbered.{graph_of};
ghost use Rattle.sp_tests_views.specs.Voting.{CanVote};

use sp_bits::Row;
use sp_dag::Dag;
use sp_frozen::{Frozen, PastVotes};
use sp_ids::Memory;
use sp_plain::{Matrix, plain_votes};
use sp_rows::RowPool;
use sp_view::View;
use std::alloc::Global;

/// The virtual vote on each pair by its number; there is none on a pair that isn't inside the set.
pub(crate) type Votes = Vec<Option<i8>>;

/// The votes that a matrix has on each pair inside a set.
pub(crate) fn signs_of(
    alloc: Global,
    dag: &Dag,
    members: &Row,
    plain: &Matrix,
) -> Result<Votes, Memory>
    requires { plain.now.width ≡ length dag.now.parents }
{
    // Tells the proof that there are at most 512 blocks.
    let _blocks = dag.len();
    let mut votes = Vec::new(alloc);
    for pair in 0..dag.pair_count() {
        let (x, y) = dag.pair(pair);
        let inside = members.test(x) && members.test(y);
        votes.push(if inside { Some(plain.vote(x, y)) } else { None })?;
    }
    Ok(votes)
}

/// The plain votes of a set on each pair.
pub(crate) fn plain_signs(alloc: Global, dag: &Dag, members: &Row) -> Result<Votes, Memory>
    requires { IsClosed (graph_of dag.now) (length dag.now.parents) members.now }
{
    let plain = plain_votes(alloc, dag, members)?;
    signs_of(alloc, dag, members, &plain)
}

/// The plain votes of the members of a view.
pub(crate) fn plain_of(
    alloc: Global,
    dag: &Dag,
    frozen: &Frozen,
    pool: &RowPool,
    view: &View,
) -> Result<Votes, Memory>
    requires { CanVote dag.now frozen.now pool.now view.now }
{
    plain_signs(alloc, dag, view.members())
}

/// The vote of a view on a pair, if that is inside.
pub(crate) fn vote_on(
    dag: &Dag,
    frozen: &Frozen,
    pool: &RowPool,
    view: &View,
    pair: u32,
) -> Option<i8>
    requires { CanVote dag.now frozen.now pool.now view.now }
{
    match view.rows(pair) {
        Some(_) => Some(view.virtual_vote(frozen, pool, pair)),
        None => None,
    }
}

/// Whether a view has just these votes.
pub(crate) fn has_votes(
    dag: &Dag,
    frozen: &Frozen,
    pool: &RowPool,
    view: &View,
    votes: &[Option<i8>],
) -> bool
    requires { CanVote dag.now frozen.now pool.now view.now }
{
    for pair in 0..dag.pair_count() {
        if votes.get(pair as usize).copied() != Some(vote_on(dag, frozen, pool, view, pair)) {
            return false;
        }
    }
    true
}

/// The votes that a view hands on.
pub(crate) fn past_votes(
    dag: &Dag,
    frozen: &Frozen,
    pool: &RowPool,
    view: &View,
) -> Result<PastVotes, Memory>
    requires { CanVote dag.now frozen.now pool.now view.now }
{
    // Tells the proof that there are at most 130,816 pairs.
    let _pairs = dag.pair_count();
    view.past_votes(frozen, pool)
}

/// The pairs that changed from an older view to a view.
pub(crate) fn changes(
    dag: &Dag,
    frozen: &Frozen,
    pool: &RowPool,
    older: &View,
    view: &View,
) -> Result<Vec<u32>, Memory>
    requires can { CanVote dag.now frozen.now pool.now view.now }
    requires can_older { CanVote dag.now frozen.now pool.now older.now }
{
    // Tells the proof that there are at most 130,816 pairs.
    let _pairs = dag.pair_count();
    view.changed(older, frozen, pool)
}

/// Whether a list has just the pairs inside a set with these votes, ascending.
pub(crate) fn are_inside(listed: &[(u32, i8)], votes: &[Option<i8>]) -> bool {
    let mut place = 0usize;
    let mut pair = 0u32;
    for vote in votes {
        if let Some(vote) = vote {
            if listed.get(place).copied() != Some((pair, *vote)) {
                return false;
            }
            place = place.saturating_add(1);
        }
        pair = pair.saturating_add(1);
    }
    place == listed.len()
}

/// Whether a list has just the pairs that are new in a set with these votes, or on which an older set
/// voted otherwise, ascending.
pub(crate) fn are_turned(listed: &[u32], before: &[Option<i8>], votes: &[Option<i8>]) -> bool {
    let mut place = 0usize;
    let mut pair = 0u32;
    for vote in votes {
        if vote.is_some() && before.get(pair as usize).copied() != Some(*vote) {
            if listed.get(place).copied() != Some(pair) {
                return false;
            }
            place = place.saturating_add(1);
        }
        pair = pair.saturating_add(1);
    }
    place == listed.len()
}
