//! Blocks that carry transactions, made from drafts: what the tests of acceptance, of balances, of drawn
//! feeds and of long chains offer to an engine.

use crate::acceptance_rows::Laid;
use crate::engine::offer;
use crate::payments::{chosen, tx_ids};
use sp_block::{Draft, Parents, draft_bytes};
use sp_engine::Engine;
use sp_ids::{BlockId, TxId};
use sp_tx::Txs;
use std::alloc::Global;
use std::test::Fail;

/// The bytes of a draft, of nonce 0.
fn text_of(alloc: Global, draft: &Draft) -> Result<Vec<u8>, Fail> {
    if draft.parents.as_slice().len() > 64 || draft.txs.as_slice().len() > 256 {
        return Err("too long".into());
    }
    Ok(draft_bytes(alloc, draft, 0)?)
}

/// Blocks by number, genesis first; the salt of each is its number.
pub struct Blocks {
    pub alloc: Global,
    txs: Vec<TxId>,
    ids: Vec<BlockId>,
    texts: Vec<Vec<u8>>,
}

// Written out, so that where they are let go there is one call.
impl Drop for Blocks {
    fn drop(self) {
        let Blocks {
            alloc: _,
            txs,
            ids,
            texts,
        } = self;
        drop(txs);
        drop(ids);
        drop(texts);
    }
}

impl Blocks {
    /// No block.
    pub fn new(alloc: Global) -> Result<Blocks, Fail> {
        Ok(Blocks {
            alloc,
            txs: tx_ids(alloc)?,
            ids: Vec::new(alloc),
            texts: Vec::new(alloc),
        })
    }

    /// Genesis, with these payments, and then the others.
    pub fn of(alloc: Global, genesis: &[usize], blocks: &[Laid]) -> Result<Blocks, Fail> {
        let mut all = Blocks::new(alloc)?;
        all.add(&[], genesis)?;
        for (parents, txs) in blocks {
            all.add(parents, txs)?;
        }
        Ok(all)
    }

    fn parents(&self, numbers: &[usize]) -> Result<Parents, Fail> {
        let mut ids = Vec::new(self.alloc);
        for number in numbers {
            ids.push(self.ids.get(*number).copied().ok_or("no parent")?)?;
        }
        Ok(Parents::of(ids))
    }

    fn spelled(&self, parents: &[usize], txs: Txs) -> Result<Vec<u8>, Fail> {
        let draft = Draft {
            salt: self.ids.len() as u64,
            parents: self.parents(parents)?,
            txs,
        };
        text_of(self.alloc, &draft)
    }

    /// Adds a block with these transactions.
    pub fn put(&mut self, parents: &[usize], txs: Txs) -> Result<(), Fail> {
        let text = self.spelled(parents, txs)?;
        self.ids.push(BlockId::of(&text))?;
        self.texts.push(text)?;
        Ok(())
    }

    fn add(&mut self, parents: &[usize], txs: &[usize]) -> Result<(), Fail> {
        let txs = chosen(self.alloc, &self.txs, txs)?;
        self.put(parents, txs)
    }

    /// The ids of all payments.
    pub fn txs(&self) -> &[TxId] {
        &self.txs
    }

    /// How many there are, with genesis.
    pub fn count(&self) -> usize {
        self.texts.len()
    }

    /// The bytes of a block; none where there is no such block.
    pub fn text(&self, number: usize) -> &[u8] {
        match self.texts.get(number) {
            Some(text) => text,
            None => &[],
        }
    }
}

/// They come to an engine by their numbers, or the last of them first.
pub fn offer_each(engine: &mut Engine, blocks: &Blocks, backward: bool) -> Result<(), Fail> {
    let count = blocks.count();
    for turn in 1..count {
        let number = if backward { count - turn } else { turn };
        let _told = offer(engine, blocks.text(number))?;
    }
    Ok(())
}
