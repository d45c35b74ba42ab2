//! Each voter of a pair by itself, as the five cases of a vote say: of the frozen ones, those that the
//! frozen rows have, and of the loose ones, those that a view's rows have.

ghost use Rattle.std.specs.Prelude.{◌<◌, length};
ghost use Rattle.sp_dag.specs.Numbered.{pairs_of};
ghost use Rattle.sp_tests_views.specs.Voting.{IsBased};

use crate::places::{is_same, places};
use crate::signs::plain_signs;
use sp_bits::Row;
use sp_dag::Dag;
use sp_frozen::Frozen;
use sp_ids::{BlockId, Memory};
use sp_model::Profile;
use sp_rows::RowPool;
use sp_view::View;
use std::alloc::Global;
use std::test::Fail;

/// The two frozen rows of a pair.
pub(crate) fn frozen_rows(dag: &Dag, frozen: &Frozen, pair: u32) -> (Row, Row)
    requires based { IsBased dag.now frozen.now }
    requires listed { pair < length (pairs_of dag.now) }
{
    // Tells the proof which blocks they are.
    let _both = dag.pair(pair);
    (*frozen.plus(pair), *frozen.minus(pair))
}

/// The frozen vote of a block on a pair.
pub(crate) fn frozen_on(dag: &Dag, frozen: &Frozen, pair: u32, z: u16) -> Option<i8>
    requires based { IsBased dag.now frozen.now }
    requires listed { pair < length (pairs_of dag.now) }
    requires z_in { z < length dag.now.parents }
{
    // Tells the proof which blocks they are.
    let _both = dag.pair(pair);
    frozen.vote(dag, pair, z)
}

/// The vote for the block of the lower of two ranks, each a salt and an id: -1 where that is the first.
pub(crate) fn by_rank(first: &(u64, BlockId), second: &(u64, BlockId)) -> i8 {
    let lower = if first.0 == second.0 {
        first.1.cmp(&second.1).is_lt()
    } else {
        first.0 < second.0
    };
    if lower { -1 } else { 1 }
}

/// The vote of a block that finds this one on a pair in its past.
fn kept_or_settled(dag: &Dag, pair: u32, vote: i8) -> i8
    requires { pair < length (pairs_of dag.now) }
{
    if vote != 0 {
        return vote;
    }
    let (x, y) = dag.pair(pair);
    match dag.profile() {
        Profile::One => 0,
        Profile::Two => by_rank(&dag.rank(x), &dag.rank(y)),
    }
}

/// The vote of a block that has a pair in its past, by the plain votes of that.
fn vote_behind(dag: &Dag, past: &[Option<i8>], pair: u32) -> Option<i8>
    requires { pair < length (pairs_of dag.now) }
{
    let found = past.get(pair as usize).copied().flatten()?;
    Some(kept_or_settled(dag, pair, found))
}

/// The vote of a frozen voter on a pair by the plain votes of its past; there is none for a loose one.
fn plain_frozen(dag: &Dag, past: &[Option<i8>], pair: u32, z: u16) -> Option<i8>
    requires listed { pair < length (pairs_of dag.now) }
    requires z_in { z < length dag.now.parents }
{
    let (x, y) = dag.pair(pair);
    if z == x {
        return Some(-1);
    }
    if z == y {
        return Some(1);
    }
    match (dag.in_past(x, z), dag.in_past(y, z)) {
        (true, true) => vote_behind(dag, past, pair),
        (true, false) => Some(-1),
        (false, true) => Some(1),
        (false, false) => None,
    }
}

/// Whether a block's frozen vote is, on each pair, what the plain votes of its past say.
fn is_frozen(dag: &Dag, frozen: &Frozen, past: &[Option<i8>], z: u16) -> bool
    requires based { IsBased dag.now frozen.now }
    requires z_in { z < length dag.now.parents }
{
    // Tells the proof that there are at most 512 blocks.
    let _blocks = dag.len();
    for pair in 0..dag.pair_count() {
        let vote = plain_frozen(dag, past, pair, z);
        let (plus, minus) = frozen_rows(dag, frozen, pair);
        if frozen_on(dag, frozen, pair, z) != vote
            || plus.test(z) != (vote == Some(1))
            || minus.test(z) != (vote == Some(-1))
        {
            return false;
        }
    }
    true
}

/// The plain votes of a block's past.
pub(crate) fn plain_past(alloc: Global, dag: &Dag, z: u16) -> Result<Vec<Option<i8>>, Memory>
    requires { z < length dag.now.parents }
{
    // Tells the proof that the blocks stand in order.
    let _blocks = dag.len();
    plain_signs(alloc, dag, dag.past(z))
}

/// Whether each block's frozen votes are those of its past.
pub(crate) fn are_frozen(alloc: Global, dag: &Dag, frozen: &Frozen) -> Result<bool, Memory>
    requires { IsBased dag.now frozen.now }
{
    for z in 0..dag.len() {
        let past = plain_past(alloc, dag, z)?;
        if !is_frozen(dag, frozen, &past, z) {
            return Ok(false);
        }
    }
    Ok(true)
}

/// What has the sign of a member's vote on a pair, and whether the member is loose, by the rows of those
/// above it that vote +1 and -1.
fn vote_of(dag: &Dag, frozen: &Frozen, pair: u32, z: u16, plus: &Row, minus: &Row) -> (i32, bool)
    requires based { IsBased dag.now frozen.now }
    requires listed { pair < length (pairs_of dag.now) }
    requires z_in { z < length dag.now.parents }
{
    match frozen_on(dag, frozen, pair, z) {
        Some(vote) => (vote as i32, false),
        None => (dag.future(z).balance(plus, minus), true),
    }
}

/// The loose members of a set that vote +1 on a pair, and those that vote -1, found from the highest
/// down.
fn loose_voters(dag: &Dag, frozen: &Frozen, members: &Row, pair: u32) -> (Row, Row)
    requires based { IsBased dag.now frozen.now }
    requires listed { pair < length (pairs_of dag.now) }
{
    let (mut plus, mut minus) = (Row::empty(), Row::empty());
    let (mut loose_plus, mut loose_minus) = (Row::empty(), Row::empty());
    for z in (0..dag.len()).rev() {
        if !members.test(z) {
            continue;
        }
        let (vote, loose) = vote_of(dag, frozen, pair, z, &plus, &minus);
        if vote > 0 {
            plus.set(z);
            if loose {
                loose_plus.set(z);
            }
        } else if vote < 0 {
            minus.set(z);
            if loose {
                loose_minus.set(z);
            }
        }
    }
    (loose_plus, loose_minus)
}

/// Whether the rows of each pair inside a view have the loose voters that the votes on it say.
pub(crate) fn are_held(
    dag: &Dag,
    frozen: &Frozen,
    pool: &RowPool,
    view: &View,
) -> Result<bool, Fail>
    requires { IsBased dag.now frozen.now }
{
    for pair in 0..dag.pair_count() {
        if let Some((plus, minus)) = view.rows(pair) {
            let voters = loose_voters(dag, frozen, view.members(), pair);
            if !is_same(&places(pool, plus)?, &voters.0)
                || !is_same(&places(pool, minus)?, &voters.1)
            {
                return Ok(false);
            }
        }
    }
    Ok(true)
}
