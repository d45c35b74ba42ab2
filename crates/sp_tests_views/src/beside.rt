//! A graph of plain votes that grows beside an engine, so that what the engine says can be compared
//! with them after each arrival.

use crate::signs::{Votes, has_votes, signs_of};
use sp_engine::Engine;
use sp_fixtures::graph::check_new;
use sp_ids::BlockId;
use sp_model::Profile;
use sp_plain::{Plain, first_blocks};
use std::alloc::Global;
use std::test::Fail;

/// Genesis alone, as an engine of no other block has it.
pub(crate) fn beside(alloc: Global, engine: &Engine, profile: Profile) -> Result<Plain, Fail> {
    let genesis = engine.genesis();
    Ok(Plain::new(alloc, genesis.id, genesis.salt, profile)?)
}

/// Adds a block that the engine keeps.
pub(crate) fn follow(plain: &mut Plain, engine: &Engine, id: BlockId) -> Result<(), Fail> {
    let block = engine.block(&id).ok_or("not kept")?;
    let parents = block.parents.as_slice();
    check_new(plain.dag(), &id, parents)?;
    plain.add(id, block.salt, parents)?;
    Ok(())
}

/// The plain votes of all blocks on each pair.
fn votes_of_all(alloc: Global, plain: &mut Plain) -> Result<Votes, Fail> {
    let dag = plain.dag();
    let members = first_blocks(dag, dag.len());
    let matrix = plain.votes(&members)?;
    Ok(signs_of(alloc, plain.dag(), &members, &matrix)?)
}

/// Whether an engine has as many blocks and pairs as the graph, and its view of all votes as the plain
/// votes of all blocks say.
pub(crate) fn votes_so(alloc: Global, engine: &Engine, plain: &mut Plain) -> Result<bool, Fail> {
    let votes = votes_of_all(alloc, plain)?;
    let (dag, same) = (engine.dag(), plain.dag());
    let (frozen, pool) = (engine.frozen(), engine.row_pool());
    Ok(
        dag.len() == same.len()
            && dag.pair_count() == same.pair_count()
            && has_votes(dag, frozen, pool, engine.view_all(), &votes),
    )
}
