//! The votes of all present blocks: frozen ones, and rows of loose ones that the views of the tips
//! and of all blocks share, beside the sums of the votes of all. While an arrival's blocks join, the entries
//! of the view of all are saved before they change, so that the blocks can be taken back, and the sums from
//! before, so that it can be told which votes turned.

ghost use Rattle.std.specs.Prelude.{◌≡◌, ◌≢◌, ◌<◌, ◌≤◌, ◌+◌, ◌∷◌, [], ℕ, List, length, IfOk, IfSome, IfNone, OnOk, OnErr, IsTrue, IsFalse, ◌↔◌};
ghost use Rattle.sp_bits.specs.Places.{IsGreatest};
ghost use Rattle.sp_model.specs.Votes.{virt, word_of};
ghost use Rattle.sp_dag.specs.Numbered.{Numbered, graph_of, AreInOrder};
ghost use Rattle.sp_view.specs.Views.{IsView, Viewed};
ghost use Rattle.sp_accept.specs.Acceptance.{first_blocks};
ghost use Rattle.sp_accept.specs.Changes.{TellsChanges};
ghost use Rattle.sp_engine.specs.Engine.{numbers};
ghost use Rattle.sp_engine.specs.Votes.{AreJoining, AreVoted, AreWhole, bar_row, Grew, HaveJoined, HaveJoinedBut, AreFew, IsAsBefore, IsOfAll, IsOfTip, is_tip, Tallied};

use crate::block_view::block_view;
use crate::changes::turned_pairs;
use crate::joining::{
    new_tip, put_tip, release_between, release_covered, release_excess, restore_last, settle_last,
};
use crate::words::{related_word, word_by};
use sp_bits::Row;
use sp_dag::Dag;
use sp_frozen::Frozen;
use sp_ids::Memory;
use sp_model::Word;
use sp_rows::RowPool;
use sp_view::{Saved, Sums, View};
use std::alloc::Global;
use std::marker::Model;

/// The votes of the first blocks of a graph. Contracts see the frozen votes, the pool of rows, the
/// views over it: those of tips, ascending, and behind them that of all blocks; the number from which on
/// the tips have views; and the sums of the votes of all blocks, by the numbers of the pairs.
pub(crate) struct Votes {
    alloc: Global,
    frozen: Frozen,
    rows: RowPool,
    views: Vec<View>,
    since: u16,
    sums: Sums,
}

impl Model for Votes {
    ghost use Rattle.sp_engine.specs.Votes.{Tallied};

    ghost Value = { Tallied };

    ghost view = { λ v. record { frozen = v.frozen; rows = v.rows; views = v.views.items; since = v.since; sums = v.sums } };
}

/// What the votes were before the blocks of an arrival joined them: how many blocks, of how many of their tips
/// there were views, from which number on, the members of the view of all of them, what is saved of its entries, and the sums of its votes.
#[derive(Drop)]
pub(crate) struct Before {
    pub(crate) blocks: u16,
    pub(crate) tips: usize,
    pub(crate) since: u16,
    pub(crate) members: Row,
    pub(crate) saved: Saved,
    pub(crate) sums: Sums,
}

// Written out, so that where they are let go there is one call.
impl Drop for Votes {
    fn drop(self) {
        let Votes {
            alloc: _,
            frozen: _,
            rows: _,
            views: _,
            since: _,
            sums: _,
        } = self;
    }
}

// How many of so many views are left where so many first ones of them are let go, if some views of the blocks behind the
// first ones were.
fn left_of(views: usize, first: usize, since: u16, blocks: u16) -> usize
    requires { first ≤ views }
    ensures go { blocks < since → result + first ≡ views }
    ensures stay { since ≤ blocks → result ≡ views }
{
    if since > blocks { views - first } else { views }
}

// Whether a place is the highest one of a row.
fn is_top(row: &Row, place: u16) -> bool
    ensures { IsTrue result ↔ IsGreatest row.now place }
{
    match row.highest() {
        Some(top) => top == place,
        None => false,
    }
}

impl Votes {
    /// The votes of no blocks.
    ///
    /// # Errors
    ///
    /// Memory was refused.
    pub(crate) fn new(alloc: Global) -> Result<Votes, Memory>
        ensures joining { IfOk result (λ votes. (table : Numbered) → AreInOrder table.parents →
            length table.parents ≡ 1 → HaveJoinedBut table 0 votes votes []) }
        ensures blocks { IfOk result (λ votes. votes.frozen.blocks ≡ 0) }
    {
        let mut views = Vec::new(alloc);
        views.push(View::empty(alloc))?;
        Ok(Votes {
            alloc,
            frozen: Frozen::new(alloc),
            rows: RowPool::new(alloc),
            views,
            since: 0,
            sums: Sums::new(alloc),
        })
    }

    /// Adds the last block of a graph, whose other blocks were added. The view of the block and its
    /// past stands behind those that were there. The first of these, which are of tips from before the
    /// arrival and so many, stay; of the others those go that the block covers, and the oldest ones where all
    /// views take too much. Of the view of all blocks each entry that may be saved is saved before it changes.
    ///
    /// # Errors
    ///
    /// Memory was refused; the frozen votes may have the block.
    pub(crate) fn add(&mut self, dag: &Dag, tips: usize, saved: &mut Saved) -> Result<(), Memory>
        requires joining { (n : ℕ) × (old : Tallied) ×
            HaveJoinedBut dag.now n old self.old saved.old × (tips + 1 ≡ length old.views) }
        requires next { length dag.now.parents ≡ self.old.frozen.blocks + 1 }
        ensures joined { OnOk result ((n : ℕ) (old : Tallied) →
            HaveJoinedBut dag.now n old self.old saved.old → tips + 1 ≡ length old.views →
            HaveJoined dag.now n old self.new saved.new) }
        ensures err { OnErr result ((n : ℕ) (old : Tallied) →
            HaveJoinedBut dag.now n old self.old saved.old → AreJoining dag.now n old self.new saved.new) }
    {
        // Tells the proof that there are at most 512 blocks.
        let _blocks = dag.len();
        self.views.reserve(1)?;
        self.sums.grow(dag)?;
        let views = self.views.as_slice();
        let tip = new_tip(self.alloc, views, dag, &mut self.frozen, &mut self.rows)?;
        put_tip(
            &mut self.views,
            dag,
            &self.frozen,
            &mut self.rows,
            &mut self.sums,
            saved,
            tip,
        )?;
        release_covered(&mut self.views, &mut self.rows, dag, tips);
        let since = release_excess(&mut self.views, &mut self.rows, tips, self.since);
        self.since = since;
        Ok(())
    }

    /// What the votes are before the blocks of an arrival join them. The sums are copied, and nothing is saved
    /// yet of the view of all blocks.
    ///
    /// # Errors
    ///
    /// Memory was refused.
    pub(crate) fn before(&self, dag: &Dag) -> Result<Before, Memory>
        requires { AreVoted dag.now self.now }
        ensures joined { IfOk result (λ before.
            HaveJoined dag.now (length dag.now.parents) self.now self.now before.saved) }
        ensures blocks { IfOk result (λ before. before.blocks ≡ length dag.now.parents) }
        ensures tips { IfOk result (λ before. before.tips + 1 ≡ length self.now.views) }
        ensures since { IfOk result (λ before. before.since ≡ self.now.since) }
        ensures sums { IfOk result (λ before. before.sums ≡ self.now.sums) }
        ensures members { IfOk result (λ before.
            before.members ≡ first_blocks (length dag.now.parents)) }
    {
        // Tells the proof that there are at most 512 blocks.
        let _blocks = dag.len();
        let blocks = self.frozen.blocks();
        let tips = self.views.len() - 1;
        // Tells the proof what the rows of a pool are.
        let _live = self.rows.live();
        let sums = self.sums.fork()?;
        let all = &self.views[tips];
        let members = *all.members();
        let saved = all.saving()?;
        Ok(Before {
            blocks,
            tips,
            since: self.since,
            members,
            saved,
            sums,
        })
    }

    /// The pairs of the blocks from before on which all blocks have another virtual vote than those
    /// did, and maybe more.
    ///
    /// # Errors
    ///
    /// Memory was refused.
    pub(crate) fn changes(&self, dag: &Dag, before: &Before) -> Result<Vec<(u16, u16)>, Memory>
        requires { (old : Tallied) × HaveJoined dag.now before.now.blocks old self.now before.now.saved
            × (before.now.sums ≡ old.sums) }
        ensures { IfOk result (λ pairs. TellsChanges dag.now before.now.blocks pairs.items) }
    {
        turned_pairs(self.alloc, dag, &before.sums, &self.sums)
    }

    /// Keeps the blocks that joined: the views of covered tips are let go, and what is saved, by which some rows
    /// of the view of all blocks may have the ids again that they had before. Then the views of the oldest tips are
    /// let go where all take too much; and first all from before the arrival, where some of its blocks' were.
    pub(crate) fn settle(&mut self, dag: &Dag, before: Before)
        requires { (old : Tallied) × HaveJoined dag.now before.blocks old self.old before.saved
            × (before.tips + 1 ≡ length old.views) }
        ensures voted { AreVoted dag.now self.new }
        ensures few { AreFew self.new }
        ensures grew { (old : Tallied) → HaveJoined dag.now before.blocks old self.old before.saved →
            before.tips + 1 ≡ length old.views →
            length dag.now.parents ≡ before.blocks + 1 → Grew dag.now before.blocks old self.new }
    {
        // Tells the proof that the blocks stand in order.
        let _blocks = dag.len();
        let Before {
            blocks,
            tips,
            since: _,
            members: _,
            saved,
            sums: _,
        } = before;
        // First these views, so that fewer of the saved rows are held by another one.
        let left = left_of(self.views.len(), tips, self.since, blocks);
        release_between(&mut self.views, &mut self.rows, 0, left);
        release_covered(&mut self.views, &mut self.rows, dag, 0);
        settle_last(&mut self.views, &mut self.rows, saved);
        let since = release_excess(&mut self.views, &mut self.rows, 0, self.since);
        self.since = since;
    }

    /// Takes the blocks back that joined, for a graph that is cut to those from before after this
    /// call: their views are let go, and the view of all blocks and the sums are those from before.
    pub(crate) fn take_back(&mut self, dag: &Dag, before: Before)
        requires members { before.members ≡ first_blocks before.blocks }
        requires joining { (old : Tallied) × AreJoining dag.now before.blocks old self.old before.saved
            × (before.tips + 1 ≡ length old.views) × (before.since ≡ old.since) × (before.sums ≡ old.sums) }
        ensures { (old : Tallied) → AreJoining dag.now before.blocks old self.old before.saved →
            before.tips + 1 ≡ length old.views → before.since ≡ old.since → before.sums ≡ old.sums →
            IsAsBefore old self.new }
    {
        let Before {
            blocks,
            tips,
            since,
            members,
            saved,
            sums,
        } = before;
        restore_last(&mut self.views, &mut self.rows, saved, &members);
        release_between(&mut self.views, &mut self.rows, tips, 1);
        // Tells the proof what the rows of a pool are.
        let _live = self.rows.live();
        self.frozen.cut(dag, blocks);
        self.sums = sums;
        self.since = since;
    }

    /// The frozen votes, lent as they stand.
    pub(crate) fn frozen(&self) -> &Frozen
        ensures { result.now ≡ self.now.frozen }
    {
        &self.frozen
    }

    /// The pool of rows, lent as it stands.
    pub(crate) fn rows(&self) -> &RowPool
        ensures { result.now ≡ self.now.rows }
    {
        &self.rows
    }

    /// The view of all blocks.
    pub(crate) fn all(&self) -> &View
        requires { 0 < length self.now.views }
        ensures { IsOfAll self.now result.now }
    {
        &self.views[self.views.len() - 1]
    }

    /// The view of a tip and its past, or `None` where a block has it as a parent, or its view was let go.
    pub(crate) fn tip(&self, dag: &Dag, n: u16) -> Option<&View>
        requires voted { AreVoted dag.now self.now }
        requires within { n < length dag.now.parents }
        ensures some { IfSome result (λ view. IsOfTip dag.now self.now n view.now) }
        ensures holds { IfSome result (λ view. IsView dag.now view.now self.now.rows) }
        ensures tip { IfSome result (λ view. IsTrue (is_tip dag.now.parents n)) }
        ensures none { IfNone result (IsTrue (is_tip dag.now.parents n) → n < self.now.since) }
    {
        // Tells the proof that the blocks stand in order.
        let _blocks = dag.len();
        let tips = self.views.len() - 1;
        'tips: for i in 0..tips {
            if is_top(self.views[i].members(), n) {
                return Some(&self.views[i]);
            }
        }
        None
    }

    /// The view of a block and its past, made anew over a pool of its own.
    ///
    /// # Errors
    ///
    /// `Memory` where there was none.
    pub(crate) fn view_anew(&self, dag: &Dag, n: u16) -> Result<(View, RowPool), Memory>
        requires voted { AreVoted dag.now self.now }
        requires within { n < length dag.now.parents }
        ensures view { IfOk result (λ made. IsView dag.now made.0 made.1) }
        ensures members { IfOk result (λ made. made.0.members ≡ bar_row dag.now n) }
    {
        let mut rows = RowPool::new(self.alloc);
        let view = block_view(self.alloc, dag, &self.frozen, &mut rows, n)?;
        Ok((view, rows))
    }

    /// The word of two different blocks, by the sign of the sum that is kept for them.
    pub(crate) fn word(&self, dag: &Dag, x: u16, y: u16) -> Word
        requires voted { AreWhole dag.now self.now }
        requires x_in { x < length dag.now.parents }
        requires y_in { y < length dag.now.parents }
        requires other { x ≢ y }
        ensures { result ≡
            word_of (virt (graph_of dag.now) (numbers dag.now) x y) }
    {
        // Tells the proof that the blocks stand in order.
        let _blocks = dag.len();
        match dag.pair_of(x, y) {
            Some(pair) => {
                let vote = self.sums.virtual_vote(pair);
                word_by(vote, x < y)
            }
            None => related_word(dag, x, y),
        }
    }
}
