//! The engine: the kept blocks, the graph of the present ones, the votes of all of them, which of
//! their transactions are accepted, and what these leave under each lock. The calls on valid blocks
//! that arrive stand apart, in `arrivals`, and those on transactions and on what they leave in `money`.

ghost use Rattle.std.specs.Prelude.{◌≡◌, ◌≤◌, ◌<◌, ◌+◌, ◌∷◌, [], ◌==◌, ◌↔◌, ℕ, false, find, length, slice_get, Some, IfNone, IfOk, IfSome, IsNone, OnOk, OnErr, IsFalse, IsTrue};
ghost use Rattle.std.specs.List.{range_with_len};
ghost use Rattle.std.specs.Option.{option_copied};
ghost use Rattle.sp_block.specs.Block.{IsGenesis};
ghost use Rattle.sp_model.specs.Graph.{has};
ghost use Rattle.sp_model.specs.Votes.{word};
ghost use Rattle.sp_pool.specs.Kept.{AreKept, graph_in, present};
ghost use Rattle.sp_dag.specs.Numbered.{IsNumbered};
ghost use Rattle.sp_frozen.specs.Voters.{HoldsFrozen};
ghost use Rattle.sp_view.specs.Stored.{count_of};
ghost use Rattle.sp_view.specs.Views.{IsView};
ghost use Rattle.sp_engine.specs.Arrivals.{answer_of, kept_after};
ghost use Rattle.sp_engine.specs.Presence.{order_of};
ghost use Rattle.sp_engine.specs.declared.answer.Answer.TheVariants.{Kept};

mod arrivals;
mod money;

use crate::answer::Answer;
use crate::first::{Decided, First, first_of};
use crate::valid::valid_block;
use crate::votes::Votes;
use sp_accept::Accepted;
use sp_block::Block;
use sp_carry::Carriers;
use sp_dag::Dag;
use sp_frozen::Frozen;
use sp_ids::{BlockId, Memory};
use sp_model::{Profile, Word};
use sp_money::Purse;
use sp_pool::Pool;
use sp_rows::RowPool;
use sp_view::View;
use std::alloc::Global;
use std::marker::Model;

/// The ledger at one node: the blocks that it keeps, and what they say. Contracts see the profile,
/// the bits of work, the kept blocks in their order, genesis first, and the present
/// blocks by number with their votes: frozen ones, and views of the tips and of all of them, whose
/// rows one pool has.
pub struct Engine {
    alloc: Global,
    bits: u8,
    genesis: BlockId,
    pool: Pool,
    // The present blocks by number.
    dag: Dag,
    // Their votes.
    votes: Votes,
    // Their transactions, and the carriers of each.
    carriers: Carriers,
    // Which of these are accepted.
    accepted: Accepted,
    // What these leave under each lock.
    purse: Purse,
}

impl Model for Engine {
    ghost use Rattle.sp_engine.specs.Engine.{IsAccepting, IsEngine, IsPaying, Ledger};

    ghost Value = { Ledger };

    ghost view = { λ e. record {
      profile = e.dag.profile;
      bits = e.bits;
      kept = e.pool;
      numbered = e.dag;
      votes = e.votes;
    } };

    ghost invariant = { λ e. IsEngine e.bits e.pool e.genesis e.dag e.votes × IsAccepting e.pool e.dag e.carriers e.accepted
        × IsPaying e.carriers e.accepted e.purse };
}

// Written out, so that where an engine is let go there is one call, and not one for each thing that it
// holds: each such place is proved.
impl Drop for Engine {
    fn drop(self) {
        let Engine {
            alloc: _,
            bits: _,
            genesis: _,
            pool: _,
            dag: _,
            votes: _,
            carriers: _,
            accepted: _,
            purse: _,
        } = self;
    }
}

impl Engine {
    ghost use Rattle.sp_engine.specs.Engine.{AreNumbered, GrewByOne, IsAccepting, IsEngine, is_growth, IsLedger, IsPaying, IsRefused, Stays};
    ghost use Rattle.sp_engine.specs.Votes.{AreFew, AreOfTips, bar_row, held_by, is_tip, IsOfAll, IsOfTip};

    /// An engine of genesis alone, which is present, in a profile.
    ///
    /// # Errors
    ///
    /// `Memory` where its tables found none.
    pub fn new(alloc: Global, genesis: Block, bits: u8, profile: Profile) -> Result<Engine, Memory>
        requires genesis { IsGenesis genesis }
        requires bits { bits ≤ 64 }
        ensures { IfOk result (IsLedger profile bits (genesis ∷ [])) }
    {
        let id = genesis.id;
        let first = first_of(alloc, id, genesis.salt, profile, &genesis.txs)?;
        let pool = Pool::new(alloc, genesis)?;
        // Tells the proof what kept blocks are.
        let _kept = pool.kept();
        Ok(Engine::of(alloc, bits, id, pool, first))
    }

    // The engine of a pool of genesis, and of what genesis says.
    fn of(alloc: Global, bits: u8, genesis: BlockId, pool: Pool, first: First) -> Engine
        requires engine { IsEngine bits pool genesis first.dag first.decided.votes }
        requires accepting { IsAccepting pool first.dag first.decided.money.carriers
            first.decided.money.accepted }
        requires paying { IsPaying first.decided.money.carriers first.decided.money.accepted
            first.decided.money.purse }
        ensures { IsLedger first.dag.profile bits pool result }
    {
        let First { dag, decided } = first;
        let Decided { votes, money } = decided;
        let (carriers, accepted, purse) = money.parts();
        Engine {
            alloc,
            bits,
            genesis,
            pool,
            dag,
            votes,
            carriers,
            accepted,
            purse,
        }
    }

    /// Judges bytes that arrive, and keeps the block that they spell where it is valid, new, and
    /// finds room. They are refused by their first fault or for their work; else the block is
    /// known, else there is no room for it, else it is kept, and waits or is present.
    ///
    /// A block that becomes present takes the time of its own votes and of those that it changes. An
    /// arrival that makes blocks present takes a few steps for each pair besides, which compare the sums
    /// from before with those of now and so tell the votes that turned, and the time of the carriers that
    /// these and the new blocks may turn.
    ///
    /// # Errors
    ///
    /// `Memory` where there was none; the engine is as before, but that more rows may be spare.
    pub fn offer(&mut self, bytes: &[u8]) -> Result<Answer, Memory>
        ensures answer { IfOk result (λ answer.
            answer ≡ answer_of self.old.bits self.old.kept bytes.now) }
        ensures kept { OnOk result
            (self.new.kept ≡ kept_after self.old.bits self.old.kept bytes.now) }
        ensures profile { OnOk result (self.new.profile ≡ self.old.profile) }
        ensures bits { self.new.bits ≡ self.old.bits }
        ensures memory { OnErr result (IsRefused self.old self.new) }
        ensures idle { IfOk result (λ answer. IsFalse (is_growth answer) →
            Stays self.old self.new) }
        ensures one { IfOk result (λ answer. (id : ℕ) → answer ≡ Kept id 1 →
            GrewByOne self.old self.new) }
    {
        let mut tx_ids = Vec::new(self.alloc);
        match valid_block(self.alloc, self.bits, bytes, &mut tx_ids)? {
            Ok(block) => self.keep(block, tx_ids.as_slice()),
            Err(refusal) => Ok(Answer::Refused(refusal)),
        }
    }

    /// What the present blocks say of two blocks. Their sum stands ready, so it takes about the time
    /// of two look-ups by hash and of two by number.
    pub fn vote(&self, x: &BlockId, y: &BlockId) -> Word
        ensures { result ≡
            word (graph_in self.now.profile self.now.kept) (present self.now.kept) x.now y.now }
    {
        let Some(first) = self.number(x) else {
            return Word::Absent;
        };
        let Some(second) = self.number(y) else {
            return Word::Absent;
        };
        self.vote_at(first, second)
    }

    /// What the present blocks say of two of them, by their numbers in the order in which they became
    /// present, counted from 0. Their sum stands ready, so it takes a bounded number of steps.
    pub fn vote_at(&self, x: u16, y: u16) -> Word
        requires x_in { x < length (present self.now.kept) }
        requires y_in { y < length (present self.now.kept) }
        ensures { (first second : ℕ) → slice_get (order_of self.now.kept) x ≡ Some first →
            slice_get (order_of self.now.kept) y ≡ Some second → result ≡
            word (graph_in self.now.profile self.now.kept) (present self.now.kept) first second }
    {
        // Tells the proof which blocks are present.
        let _blocks = self.dag.len();
        if x == y {
            return Word::Same;
        }
        self.votes.word(&self.dag, x, y)
    }

    /// How many blocks are present, from 1 to 512. What stands of their order stands here, for each
    /// caller: it has the ids of the present blocks.
    pub fn present(&self) -> u16
        ensures count { result ≡ length (present self.now.kept) }
        ensures numbered { result ≡ length self.now.numbered.parents }
        ensures order { (id : ℕ) →
            has (order_of self.now.kept) id ≡ has (present self.now.kept) id }
        ensures long { length (order_of self.now.kept) ≡ length (present self.now.kept) }
        ensures some { 1 ≤ result }
        ensures few { result ≤ 512 }
    {
        self.dag.len()
    }

    /// How many kept blocks wait for an ancestor, from 0 to 511.
    pub fn waiting(&self) -> u16
        ensures count { result + length (present self.now.kept) ≡ length self.now.kept }
        ensures few { result ≤ 511 }
    {
        self.pool.kept() - self.dag.len()
    }

    /// The id of the block that became present as the n-th one, counted from 0, which is genesis.
    pub fn id_at(&self, n: u16) -> BlockId
        requires within { n < length (present self.now.kept) }
        ensures { slice_get (order_of self.now.kept) n ≡ Some result }
    {
        self.dag.id(n)
    }

    /// The number of the present block with this id in the order in which they became so, counted
    /// from 0, or `None` where none has it. It takes about the time of a look-up by hash.
    pub fn number(&self, id: &BlockId) -> Option<u16>
        ensures found { IfSome result (λ n.
            slice_get (order_of self.now.kept) n ≡ Some id.now) }
        ensures within { IfSome result (λ n. n < length (present self.now.kept)) }
        ensures none { IsNone result ↔ IsFalse (has (present self.now.kept) id.now) }
    {
        self.dag.number(id)
    }

    /// The present blocks by number, in the order in which they became so.
    pub fn dag(&self) -> &Dag
        ensures dag { result.now ≡ self.now.numbered }
        ensures profile { result.now.profile ≡ self.now.profile }
        ensures numbered { IsNumbered result.now }
        ensures ids { result.now.ids ≡ order_of self.now.kept }
        ensures blocks { AreNumbered self.now.kept result.now }
    {
        &self.dag
    }

    /// The frozen votes of the present blocks.
    pub fn frozen(&self) -> &Frozen
        ensures frozen { result.now ≡ self.now.votes.frozen }
        ensures holds { HoldsFrozen self.now.numbered result.now }
        ensures blocks { result.now.blocks ≡ length self.now.numbered.parents }
    {
        self.votes.frozen()
    }

    /// The pool of all rows that the views hold: each row is counted once for each entry of a view that
    /// holds it, and the views are those of the tips from a number on, each with its past, and that of all
    /// blocks. There are others than that of the newest tip and that of all blocks only where the rows and the
    /// entries of all of them together take at most 128 MiB, 64 bytes for each row and 12 for each entry.
    pub fn row_pool(&self) -> &RowPool
        ensures pool { result.now ≡ self.now.votes.rows }
        ensures counts { (row : ℕ) →
            count_of result.now row ≡ held_by self.now.votes.views row }
        ensures views { AreOfTips self.now.numbered
            (length self.now.numbered.parents) self.now.votes.since self.now.votes.views }
        ensures few { AreFew self.now.votes }
    {
        self.votes.rows()
    }

    /// The view of all present blocks.
    pub fn view_all(&self) -> &View
        ensures view { IsOfAll self.now.votes result.now }
        ensures members { result.now.members
            ≡ range_with_len 0 (length self.now.numbered.parents) }
        ensures holds { IsView self.now.numbered result.now self.now.votes.rows }
    {
        self.votes.all()
    }

    /// The view of the block of this number and its past, or `None` where a present block has it as a
    /// parent, and where the view was let go since all views together took too much: then
    /// [`Engine::block_view`] makes it anew. It takes a step for each tip.
    pub fn tip_view(&self, n: u16) -> Option<&View>
        requires within { n < length self.now.numbered.parents }
        ensures view { IfSome result (λ view.
            IsOfTip self.now.numbered self.now.votes n view.now) }
        ensures holds { IfSome result (λ view.
            IsView self.now.numbered view.now self.now.votes.rows) }
        ensures tip { IfSome result (λ view. IsTrue (is_tip self.now.numbered.parents n)) }
        ensures none { IfNone result
            (IsTrue (is_tip self.now.numbered.parents n) → n < self.now.votes.since) }
    {
        self.votes.tip(&self.dag, n)
    }

    /// The view of the block of this number and its past, for each present block, and the rows that it
    /// holds, in a pool of their own. It is made anew, which takes the time and the memory that
    /// [`View::derive`] takes from none; the engine keeps nothing of it.
    ///
    /// # Errors
    ///
    /// `Memory` where there was none.
    pub fn block_view(&self, n: u16) -> Result<(View, RowPool), Memory>
        requires within { n < length self.now.numbered.parents }
        ensures view { IfOk result (λ made. IsView self.now.numbered made.0 made.1) }
        ensures members { IfOk result (λ made.
            made.0.members ≡ bar_row self.now.numbered n) }
    {
        self.votes.view_anew(&self.dag, n)
    }

    /// Which rule on ties the votes follow.
    pub fn profile(&self) -> Profile
        ensures { result ≡ self.now.profile }
    {
        self.dag.profile()
    }

    /// The bits of work that an id has to meet.
    pub fn bits(&self) -> u8
        ensures value { result ≡ self.now.bits }
        ensures bound { result ≤ 64 }
    {
        self.bits
    }

    /// The genesis block, in about the time of a look-up by hash.
    pub fn genesis(&self) -> &Block
        ensures { slice_get self.now.kept 0 ≡ Some result.now }
    {
        match self.pool.block(&self.genesis) {
            Some(block) => block,
            None => unreachable!(),
        }
    }

    /// How many blocks are kept, from 1 to 512: genesis and the waiting ones count. What stands of
    /// the kept blocks stands here, for each caller.
    pub fn kept_count(&self) -> u16
        ensures count { result ≡ length self.now.kept }
        ensures blocks { AreKept self.now.kept }
    {
        self.pool.kept()
    }

    /// The kept block with this id, or `None` where there is none. It takes about the time of a
    /// look-up by hash.
    pub fn block(&self, id: &BlockId) -> Option<&Block>
        ensures { option_copied result ≡ find (λ block. block.id == id.now) self.now.kept }
    {
        self.pool.block(id)
    }
}
