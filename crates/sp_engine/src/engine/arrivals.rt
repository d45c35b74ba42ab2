//! What becomes of a valid block that arrives: it is known, there is no room for it, or it is kept.

ghost use Rattle.std.specs.Prelude.{◌≡◌, ◌++◌, ◌∷◌, [], ℕ, map, IfOk, OnOk, OnErr, IsFalse};
ghost use Rattle.sp_ids.specs.Bits.{BeginsWithZeros};
ghost use Rattle.sp_tx.specs.Spending.{id_of};
ghost use Rattle.sp_block.specs.Block.{IsOther};
ghost use Rattle.sp_pool.specs.Kept.{keep, standing_of};
ghost use Rattle.sp_pool.specs.declared.answers.Standing.{Standing};
ghost use Rattle.sp_engine.specs.Arrivals.{answer_by, joined};
ghost use Rattle.sp_engine.specs.Engine.{GrewByOne, is_growth, IsRefused, Stays};
ghost use Rattle.sp_engine.specs.declared.answer.Answer.TheVariants.{Kept};

use crate::answer::Answer;
use crate::engine::Engine;
use crate::growth::grow;
use sp_block::Block;
use sp_ids::{BlockId, Memory, TxId};
use sp_pool::{Offer, Standing};

impl Engine {
    /// Keeps a valid block, whose transactions have these ids, where its id is new and there is room
    /// for it, and answers what became of it.
    pub(super) fn keep(&mut self, block: Block, tx_ids: &[TxId]) -> Result<Answer, Memory>
        requires ids { tx_ids.now ≡ map id_of block.txs }
        requires other { IsOther block }
        requires work { BeginsWithZeros block.id self.old.bits }
        ensures answer { IfOk result (λ answer. answer ≡
            answer_by (standing_of self.old.kept block.id) self.old.kept block) }
        ensures kept { OnOk result (self.new.kept ≡ keep self.old.kept block) }
        ensures profile { OnOk result (self.new.profile ≡ self.old.profile) }
        ensures bits { self.new.bits ≡ self.old.bits }
        ensures memory { OnErr result (IsRefused self.old self.new) }
        ensures idle { IfOk result (λ answer. IsFalse (is_growth answer) →
            Stays self.old self.new) }
        ensures one { IfOk result (λ answer. (id : ℕ) → answer ≡ Kept id 1 →
            GrewByOne self.old self.new) }
    {
        let id = block.id;
        match self.pool.standing(&id) {
            Standing::Known => Ok(Answer::Known { id }),
            Standing::Full => Ok(Answer::Full),
            Standing::Fresh => self.take(block, tx_ids),
        }
    }

    /// Keeps a valid block of a new id, for which there is room. Its transactions have these ids.
    ///
    /// # Errors
    ///
    /// `Memory` where there was none; the engine is as before, but that more rows may be spare.
    fn take(&mut self, block: Block, tx_ids: &[TxId]) -> Result<Answer, Memory>
        requires ids { tx_ids.now ≡ map id_of block.txs }
        requires other { IsOther block }
        requires work { BeginsWithZeros block.id self.old.bits }
        requires fresh { standing_of self.old.kept block.id ≡ Standing.Fresh }
        ensures answer { IfOk result (λ answer. answer ≡ joined self.old.kept block) }
        ensures kept { OnOk result (self.new.kept ≡ self.old.kept ++ block ∷ []) }
        ensures profile { OnOk result (self.new.profile ≡ self.old.profile) }
        ensures bits { self.new.bits ≡ self.old.bits }
        ensures memory { OnErr result (IsRefused self.old self.new) }
        ensures idle { IfOk result (λ answer. IsFalse (is_growth answer) →
            Stays self.old self.new) }
        ensures one { IfOk result (λ answer. (id : ℕ) → answer ≡ Kept id 1 →
            GrewByOne self.old self.new) }
    {
        let id = block.id;
        match self.pool.offer(block)? {
            Offer::Present(ids) => {
                let ids = ids.as_slice();
                let present = ids.len() as u16;
                let grown = grow(
                    &self.pool,
                    &mut self.dag,
                    &mut self.votes,
                    &mut self.carriers,
                    &mut self.accepted,
                    &mut self.purse,
                    ids,
                    &id,
                    tx_ids,
                );
                match grown {
                    Ok(()) => Ok(Answer::Kept { id, present }),
                    // The offer is taken back too.
                    Err(refused) => {
                        self.pool.withdraw();
                        Err(refused)
                    }
                }
            }
            Offer::Waiting => Ok(Answer::Held { id }),
            // Its id is fresh.
            Offer::Known | Offer::Full => unreachable!(),
        }
    }
}
