//! A whole list of arrivals, apart from the pool since it needs no more of it than its calls. Here
//! stands what a pool comes to over all of them, whatever their order.

ghost use Rattle.std.specs.Prelude.{◌≡◌, ◌∷◌, [], ℕ, All, IfOk, map};
ghost use Rattle.sp_block.specs.Block.{IsGenesis, IsOther, ReadBlock};
ghost use Rattle.sp_model.specs.Graph.{AreDistinct, has};
ghost use Rattle.sp_pool.specs.Arrivals.{AreKeptOf};
ghost use Rattle.sp_pool.specs.Kept.{kept_of, present};
ghost use Rattle.sp_pool.specs.Offers.{AreAnswers, order_of_presence};

use crate::answers::Offer;
use crate::pool::Pool;
use sp_block::Block;
use sp_ids::Memory;
use std::alloc::Global;

/// A pool of genesis to which the blocks were offered one after another, and the answer to each.
///
/// The pool keeps genesis and each block whose id is none of those before it, until 512 blocks
/// stand. The answers tell of each present block but genesis once, in the order in which the blocks
/// became present. It takes about the time of the offers.
///
/// # Errors
///
/// `Memory` where the pool, the list of answers or an offer found none.
pub fn offer_all(
    alloc: Global,
    genesis: Block,
    blocks: Vec<Block>,
) -> Result<(Pool, Vec<Offer>), Memory>
    requires genesis { IsGenesis genesis }
    requires others { All IsOther blocks.items }
    ensures kept { IfOk result (λ run. run.0 ≡ kept_of genesis blocks.items) }
    ensures kept_by_bytes { IfOk result (λ run.
        AreKeptOf genesis 0 (map (λ (block : ReadBlock). block.bytes) blocks.items) run.0) }
    ensures answers { IfOk result (λ run. AreAnswers (genesis ∷ []) blocks.items run.1.items) }
    ensures each { IfOk result (λ run. (id : ℕ) →
        has (present run.0) id ≡ has (order_of_presence genesis run.1.items) id) }
    ensures once { IfOk result (λ run. AreDistinct (order_of_presence genesis run.1.items)) }
{
    let mut pool = Pool::new(alloc, genesis)?;
    let mut answers = Vec::with_capacity(alloc, blocks.len())?;
    for block in blocks {
        let _ = &block.id;
        let answer = pool.offer(block)?;
        answers.push(answer)?;
    }
    Ok((pool, answers))
}
