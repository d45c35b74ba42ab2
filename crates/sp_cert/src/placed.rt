//! The graph of a certificate's blocks, each judged as it joins.

ghost use Rattle.std.specs.Prelude.{◌≡◌, ◌<◌, ◌↔◌, ◌&&◌, ℕ, length, IfErr, IfOk, IfSome, IfNone, Ok, not, false, true};
ghost use Rattle.std.specs.List.{list_all};
ghost use Rattle.sp_model.specs.Graph.{has};
ghost use Rattle.sp_pool.specs.Kept.{ids_of};
ghost use Rattle.sp_block.specs.Block.{IsOther};
ghost use Rattle.sp_dag.specs.Numbered.{number_of, with_block};
ghost use Rattle.sp_cert.specs.Certificate.{AreListed};
ghost use Rattle.sp_cert.specs.Refusals.{are_two, IsCause, numbered_of, parent_refusal, is_placed};

use crate::fault::CheckFault;
use sp_block::Block;
use sp_dag::Dag;
use sp_ids::{BlockId, Memory};
use sp_model::Profile;
use std::alloc::Global;

// Whether all of these ids are there.
fn are_known(dag: &Dag, ids: &[BlockId]) -> bool
    ensures { result ≡ list_all (has dag.now.ids) ids.now }
{
    ids.iter().all(|id| dag.number(id).is_some())
}

// Adds a block, where its parents are all there and its id isn't; answers whether it did.
fn join(dag: &mut Dag, block: &Block) -> Result<bool, Memory>
    requires other { IsOther block.now }
    requires room { length dag.old.parents < 512 }
    ensures joins { IfOk result (λ joins. joins ≡
        (list_all (has dag.old.ids) block.now.parents && not (has dag.old.ids block.now.id))) }
    ensures joined { result ≡ Ok true →
        dag.new ≡ with_block dag.old block.now.id block.now.salt block.now.parents }
{
    let parents = block.parents.as_slice();
    if dag.number(&block.id).is_some() || !are_known(dag, parents) {
        return Ok(false);
    }
    dag.add(block.id, block.salt, parents)?;
    Ok(true)
}

/// The graph of the blocks in a profile, in which each block's number is its place.
///
/// # Errors
///
/// The first block of which a parent isn't an earlier one, or whose id is an earlier one's.
pub(crate) fn placed(alloc: Global, profile: Profile, blocks: &[Block]) -> Result<Dag, CheckFault>
    requires { AreListed blocks.now }
    ensures ok { IfOk result (λ dag. dag ≡ numbered_of profile blocks.now) }
    ensures placed { IfOk result (λ _. (k : ℕ) → k < length blocks.now →
        is_placed blocks.now k ≡ true) }
    ensures fault { IfErr result (IsCause (parent_refusal blocks.now)) }
{
    let genesis = &blocks[0];
    let mut dag = Dag::new(alloc, genesis.id, genesis.salt, profile)?;
    'places: for place in 1..blocks.len() {
        if !join(&mut dag, &blocks[place])? {
            return Err(CheckFault::Parent {
                block: place as u16,
            });
        }
    }
    Ok(dag)
}

/// The places of two different blocks; `None` where these aren't two.
pub(crate) fn two_of(dag: &Dag, x: &BlockId, y: &BlockId) -> Option<(u16, u16)>
    ensures some { IfSome result (λ places.
        (places.0 ≡ number_of dag.now.ids x.now) × (places.1 ≡ number_of dag.now.ids y.now)) }
    ensures within { IfSome result (λ places.
        (places.0 < length dag.now.parents) × (places.1 < length dag.now.parents)) }
    ensures two { IfSome result (λ _. are_two dag.now.ids x.now y.now ≡ true) }
    ensures none { IfNone result (are_two dag.now.ids x.now y.now ≡ false) }
{
    if x == y {
        return None;
    }
    match (dag.number(x), dag.number(y)) {
        (Some(first), Some(second)) => Some((first, second)),
        _ => None,
    }
}
