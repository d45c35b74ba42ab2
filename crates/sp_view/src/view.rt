//! A view: the votes of one set of blocks, in rows of a pool that other views may hold too. What it says of its
//! votes, how it is derived from others, and what changed from an older one stand in files of their own.

ghost use Rattle.std.specs.Prelude.{◌≡◌, ◌<◌, ◌≤◌, ◌+◌, ◌-◌, ◌^◌, ℕ, [], None, Some, length, IsTrue, IsFalse, IfSome, IfNone, IfOk, OnOk, OnErr};
ghost use Rattle.sp_model.specs.Graph.{has, in_past};
ghost use Rattle.sp_dag.specs.Numbered.{graph_of, pairs_of};
ghost use Rattle.sp_frozen.specs.Voters.{HoldsFrozen};
ghost use Rattle.sp_view.specs.Stored.{count_of, row_of, live};
ghost use Rattle.sp_view.specs.Homes.{AreHome};
ghost use Rattle.sp_view.specs.Saved.{patched, AreCountedWith, IsSaving};
ghost use Rattle.sp_view.specs.Summed.{AreRight};
ghost use Rattle.sp_view.specs.Views.{Viewed, entry_at, held, IsView, AreFresh, AreKeptIds};
ghost use Rattle.sp_view.specs.Adding.{with_member, AreCountedStill, OthersStay, AreFewLive};

mod changed;
mod derived;
mod virtual_votes;

use crate::asked_by_block::entry_of;
use crate::entries::join_entries;
use crate::joining::Joining;
use crate::last_pair::{end_of, grow};
use crate::saved::Saved;
use crate::sharing::{give_entries, share_entries};
use crate::stored::RowName;
use crate::sums::Sums;
use crate::voting::Voting;
use sp_bits::Row;
use sp_dag::Dag;
use sp_frozen::Frozen;
use sp_ids::Memory;
use sp_rows::{RowId, RowPool};
use std::alloc::Global;
use std::marker::Model;

/// A set of blocks that holds the past of each member, and for each unrelated pair inside it two rows
/// of a pool: the loose voters that vote +1 and those that vote -1. Contracts see the members, and
/// the two rows of each pair by its number.
#[derive(Drop)]
pub struct View {
    alloc: Global,
    members: Row,
    entries: Vec<Option<(RowName, RowName)>>,
}

impl Model for View {
    ghost use Rattle.std.specs.Prelude.{ℕ, ◌≤◌};
    ghost use Rattle.sp_view.specs.Views.{Viewed, held};

    ghost Value = { Viewed };

    ghost view = { λ v. record { members = v.members; entries = v.entries.items } };

    ghost invariant = { λ v. (r : ℕ) → held v.entries.items r ≤ 1 };
}

impl View {
    /// No blocks.
    pub fn empty(alloc: Global) -> View
        ensures { result ≡ record { members = []; entries = [] } }
    {
        View {
            alloc,
            members: Row::empty(),
            entries: Vec::new(alloc),
        }
    }

    /// The members, lent as they stand.
    pub fn members(&self) -> &Row
        ensures { result.now ≡ self.now.members }
    {
        &self.members
    }

    /// How many pairs the view has entries for, up to the last one inside it: each takes 12 bytes.
    pub fn entry_count(&self) -> usize
        ensures { result ≡ length self.now.entries }
    {
        self.entries.len()
    }

    // The entries, lent as they stand.
    fn entries(&self) -> &[Option<(RowName, RowName)>]
        ensures same { result.now ≡ self.now.entries }
        ensures once { (r : ℕ) → held result.now r ≤ 1 }
    {
        self.entries.as_slice()
    }

    // The names of the two rows of a pair.
    fn entry(&self, pair: u32) -> Option<(RowName, RowName)>
        ensures { result ≡ entry_at self.now.entries pair }
    {
        entry_of(&self.entries, pair as usize)
    }

    /// The two rows of a pair, that of +1 and that of -1; there are none where one of its blocks
    /// isn't a member.
    pub fn rows(&self, pair: u32) -> Option<(RowId, RowId)>
        ensures some { IfSome result (λ rows.
            entry_at self.now.entries pair ≡ Some (rows.0.0, rows.1.0)) }
        ensures none { IfNone result (entry_at self.now.entries pair ≡ None) }
    {
        match self.entry(pair) {
            Some((plus, minus)) => Some((plus.id, minus.id)),
            None => None,
        }
    }

    /// Adds a block whose past the view holds. Each row whose places stay keeps its id, and each row
    /// that is held beyond this view keeps its places.
    ///
    /// # Errors
    ///
    /// Memory was refused; the view and all live rows are as before.
    pub fn add(
        &mut self,
        dag: &Dag,
        frozen: &Frozen,
        pool: &mut RowPool,
        b: u16,
    ) -> Result<(), Memory>
        requires view { IsView dag.now self.old pool.old }
        requires frozen { HoldsFrozen dag.now frozen.now }
        requires added { (z : ℕ) → IsTrue (has self.old.members z) → z < frozen.now.blocks }
        requires b_added { b < frozen.now.blocks }
        requires new { IsFalse (has self.old.members b) }
        requires past { (z : ℕ) → IsTrue (in_past (graph_of dag.now) z b) →
            IsTrue (has self.old.members z) }
        requires few { live pool.old < 2 ^ 30 }
        ensures ok { OnOk result (IsView dag.now self.new pool.new) }
        ensures members { OnOk result (self.new.members ≡ with_member self.old.members b) }
        ensures kept { OnOk result (AreKeptIds dag.now self.old.members self.new.members
            self.old.entries self.new.entries) }
        ensures counts { AreCountedStill pool.old pool.new self.old.entries self.new.entries }
        ensures others { OthersStay pool.old pool.new self.old.entries }
        ensures fresh { OnOk result (AreFresh self.old.entries self.new.entries pool.old pool.new) }
        ensures live { OnOk result (AreFewLive dag.now b self.old.members self.new.members
            pool.old pool.new) }
        ensures long { length self.new.entries ≤ length (pairs_of dag.now) }
        ensures err { OnErr result (self.new ≡ self.old) }
        ensures err_rows { OnErr result (pool.new.rows ≡ pool.old.rows) }
    {
        let mut sums = Sums::new(self.alloc);
        let mut saved = Saved::new(self.alloc);
        self.add_with_sums(dag, frozen, pool, &mut sums, &mut saved, b)?;
        Ok(())
    }

    /// Adds a block as [`View::add`] does, with sums of the members' votes, which become those with the block. Each
    /// entry that changes and that may be saved is saved before, if it isn't yet.
    ///
    /// # Errors
    ///
    /// Memory was refused; the view, all live rows, the sums and what is saved are as before.
    pub fn add_with_sums<'a>(
        &mut self,
        dag: &'a Dag,
        frozen: &'a Frozen,
        pool: &mut RowPool,
        sums: &mut Sums,
        saved: &mut Saved,
        b: u16,
    ) -> Result<(), Memory>
        requires view { IsView dag.now self.old pool.old }
        requires frozen { HoldsFrozen dag.now frozen.now }
        requires added { (z : ℕ) → IsTrue (has self.old.members z) → z < frozen.now.blocks }
        requires b_added { b < frozen.now.blocks }
        requires new { IsFalse (has self.old.members b) }
        requires past { (z : ℕ) → IsTrue (in_past (graph_of dag.now) z b) →
            IsTrue (has self.old.members z) }
        requires few { live pool.old < 2 ^ 30 }
        requires sums { AreRight dag.now self.old.members sums.old }
        requires saved { IsSaving saved.old self.old.entries }
        requires saved_live { (r : ℕ) → held saved.old r + held self.old.entries r ≤ count_of pool.old r }
        requires saved_few { 0 < length saved.old → (r : ℕ) → count_of pool.old r < 2 ^ 31 }
        ensures ok { OnOk result (IsView dag.now self.new pool.new) }
        ensures members { OnOk result (self.new.members ≡ with_member self.old.members b) }
        ensures kept { OnOk result (AreKeptIds dag.now self.old.members self.new.members
            self.old.entries self.new.entries) }
        ensures counts { AreCountedWith pool.old pool.new
            self.old.entries saved.old self.new.entries saved.new }
        ensures others { OthersStay pool.old pool.new self.old.entries }
        ensures fresh { OnOk result (AreFresh self.old.entries self.new.entries pool.old pool.new) }
        ensures live { OnOk result (AreFewLive dag.now b self.old.members self.new.members
            pool.old pool.new) }
        ensures long { length self.new.entries ≤ length (pairs_of dag.now) }
        ensures sums { OnOk result (AreRight dag.now self.new.members sums.new) }
        ensures as_long { length sums.new ≡ length sums.old }
        ensures saved { IsSaving saved.new self.new.entries }
        ensures patched { patched saved.new self.new.entries ≡ patched saved.old self.old.entries }
        ensures saved_rows { (r : ℕ) → 0 < held (patched saved.old self.old.entries) r →
            row_of pool.new r ≡ row_of pool.old r }
        ensures err { OnErr result (self.new ≡ self.old) }
        ensures err_sums { OnErr result (sums.new ≡ sums.old) }
        ensures err_saved { OnErr result (saved.new ≡ saved.old) }
        ensures err_rows { OnErr result (pool.new.rows ≡ pool.old.rows) }
    {
        // Tells the proof that there are at most 512 blocks, in order.
        let _blocks = dag.len();
        let pairs = dag.pair_count();
        let before = self.members;
        let mut members = before;
        members.set(b);
        let end = end_of(dag, &members, self.entries.len() as u32) as usize;
        self.entries.reserve(end - self.entries.len())?;
        // Each pair may take both its rows anew.
        pool.reserve(2 * pairs)?;
        grow(&mut self.entries, end);
        let set = Voting {
            dag,
            frozen,
            members: &members,
        };
        let join = Joining {
            set,
            before: &before,
            b,
        };
        join_entries(&join, pool, &mut self.entries, sums, saved);
        self.members = members;
        Ok(())
    }

    /// A view of the same set, which holds the same rows.
    ///
    /// # Errors
    ///
    /// Memory was refused; the pool is as before.
    pub fn fork(&self, pool: &mut RowPool) -> Result<View, Memory>
        requires some { (r : ℕ) → held self.now.entries r ≤ count_of pool.old r }
        requires few { (r : ℕ) → 0 < held self.now.entries r → count_of pool.old r < 2 ^ 32 - 1 }
        ensures ok { IfOk result (λ view. view ≡ self.now) }
        ensures counts { OnOk result ((r : ℕ) →
            count_of pool.new r ≡ count_of pool.old r + held self.now.entries r) }
        ensures rows { (r : ℕ) → row_of pool.new r ≡ row_of pool.old r }
        ensures live { live pool.new ≡ live pool.old }
        ensures err { OnErr result (pool.new ≡ pool.old) }
    {
        let mut entries = Vec::with_capacity(self.alloc, self.entries.len())?;
        share_entries(pool, &self.entries, &mut entries);
        Ok(View {
            alloc: self.alloc,
            members: self.members,
            entries,
        })
    }

    /// What to save this view's entries in before they change; none is saved yet.
    ///
    /// # Errors
    ///
    /// Memory was refused.
    pub fn saving(&self) -> Result<Saved, Memory>
        ensures same { IfOk result (λ saved. patched saved self.now.entries ≡ self.now.entries) }
        ensures none { IfOk result (λ saved. (r : ℕ) → held saved r ≡ 0) }
    {
        Saved::of(self.alloc, self.entries.len())
    }

    /// Puts the view back as it was, by the entries that were saved since then and the members of then. What it holds
    /// besides has one holder less for each entry.
    pub fn restore(&mut self, pool: &mut RowPool, saved: Saved, members: &Row)
        requires long { length saved ≤ length self.old.entries }
        requires live { (r : ℕ) → held saved r + held self.old.entries r ≤ count_of pool.old r }
        requires once { (r : ℕ) → held (patched saved self.old.entries) r ≤ 1 }
        ensures view { self.new ≡ record {
          members = members.now;
          entries = patched saved self.old.entries;
        } }
        ensures counts { (r : ℕ) → count_of pool.new r + (held self.old.entries r + held saved r)
            ≡ count_of pool.old r + held self.new.entries r }
        ensures rows { (r : ℕ) → 0 < count_of pool.new r →
            row_of pool.new r ≡ row_of pool.old r }
    {
        saved.put_into(pool, &mut self.entries);
        self.members = *members;
    }

    /// Keeps what the view has become, and lets the saved entries go. Where nobody else holds a saved row, and nobody but this
    /// view the one that was taken for it, the places are written into the saved one, which is held again: so the rows of
    /// neighbours mostly stay neighbours in memory. Where more than half of the entries up to the last saved one were saved,
    /// none is held again.
    pub fn settle(&mut self, pool: &mut RowPool, saved: Saved)
        requires long { length saved ≤ length self.old.entries }
        requires live { (r : ℕ) → held saved r + held self.old.entries r ≤ count_of pool.old r }
        ensures members { self.new.members ≡ self.old.members }
        ensures home { AreHome pool.old pool.new saved self.old.entries self.new.entries }
    {
        saved.settle_into(pool, &mut self.entries);
    }

    /// Lets the view go: each of its rows has one holder less for each entry that holds it.
    pub fn release(self, pool: &mut RowPool)
        requires { (r : ℕ) → held self.entries r ≤ count_of pool.old r }
        ensures counts { (r : ℕ) → count_of pool.old r ≡
            count_of pool.new r + held self.entries r }
        ensures rows { (r : ℕ) → 0 < count_of pool.new r →
            row_of pool.new r ≡ row_of pool.old r }
    {
        give_entries(pool, &self.entries);
    }
}
