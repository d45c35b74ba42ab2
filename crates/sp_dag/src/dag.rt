//! The present blocks by id and by number: what the crates above see of the graph.

ghost use Rattle.std.specs.Prelude.{◌≡◌, ◌<◌, ◌≤◌, ◌∷◌, ◌||◌, ◌==◌, ◌↔◌, [], ℕ, length, All, IfOk, OnOk, OnErr, IfSome, IsNone, IsTrue, IsFalse, slice_get, Some, min, max, nat_eq, position};
ghost use Rattle.sp_model.specs.declared.profile.Profile.{Profile};
ghost use Rattle.sp_model.specs.Graph.{has, in_past, keys, past, future, rank_of, related};
ghost use Rattle.sp_model.specs.Votes.{settled_in};
ghost use Rattle.sp_dag.specs.Closed.{closed};
ghost use Rattle.sp_dag.specs.Numbered.{graph_of, cut_to, pairs_below, pairs_of, with_block, IsNumbered, IsPair};

use crate::numbers::{Numbers, numbers_in};
use crate::ranks::by_rank;
use crate::table::Table;
use indexmap::IndexSet;
use sp_bits::Row;
use sp_ids::{BlockId, Memory};
use sp_model::Profile;
use std::alloc::Global;
use std::marker::Model;

/// From 1 to 512 present blocks, numbered from 0, genesis, in order of presence. Contracts see the
/// profile, the lists of their ids and salts, and the list of the parents of each by number.
pub struct Dag {
    alloc: Global,
    profile: Profile,
    ids: IndexSet<BlockId>,
    salts: Vec<u64>,
    table: Table,
}

// Written out, so that where a graph is let go there is one call.
impl Drop for Dag {
    fn drop(self) {
        let Dag {
            alloc: _,
            profile: _,
            ids: _,
            salts: _,
            table: _,
        } = self;
    }
}

impl Model for Dag {
    ghost use Rattle.sp_dag.specs.Numbered.{Numbered, IsNumbered};

    ghost Value = { Numbered };

    ghost view = { λ dag. record {
      profile = dag.profile;
      ids = dag.ids.keys;
      salts = dag.salts.items;
      parents = dag.table;
    } };

    ghost invariant = { λ dag. IsNumbered (record {
      profile = dag.profile;
      ids = dag.ids.keys;
      salts = dag.salts.items;
      parents = dag.table;
    }) };
}

impl Dag {
    /// Genesis alone.
    ///
    /// # Errors
    ///
    /// Memory was refused.
    pub fn new(alloc: Global, genesis: BlockId, salt: u64, profile: Profile) -> Result<Dag, Memory>
        ensures { IfOk result (λ dag. dag ≡ record {
          profile = profile;
          ids = genesis ∷ [];
          salts = salt ∷ [];
          parents = [] ∷ [];
        }) }
    {
        let mut ids = IndexSet::with_capacity(alloc, 1)?;
        ids.insert(genesis)?;
        let mut salts = Vec::with_capacity(alloc, 1)?;
        salts.push_reserved(salt);
        let mut table = Table::new(alloc);
        table.add(alloc, Numbers::of(Vec::new(alloc)))?;
        Ok(Dag {
            alloc,
            profile,
            ids,
            salts,
            table,
        })
    }

    /// Adds a block with a salt whose parents are all there, and answers its number. It takes time in
    /// proportion to its parents and to the blocks before it.
    ///
    /// # Errors
    ///
    /// Memory was refused; the graph is as before.
    pub fn add(&mut self, id: BlockId, salt: u64, parents: &[BlockId]) -> Result<u16, Memory>
        requires fresh { IsFalse (has self.old.ids id) }
        requires some { 0 < length parents.now }
        requires known { All (λ p. IsTrue (has self.old.ids p)) parents.now }
        requires room { length self.old.parents < 512 }
        ensures ok { OnOk result (self.new ≡ with_block self.old id salt parents.now) }
        ensures number { IfOk result (λ n. n ≡ length self.old.parents) }
        ensures err { OnErr result (self.new ≡ self.old) }
    {
        let numbers = numbers_in(self.alloc, &self.ids, parents)?;
        self.ids.reserve(1)?;
        self.salts.reserve(1)?;
        let number = self.table.add(self.alloc, numbers)?;
        match self.ids.insert(id) {
            Ok(_) => {
                self.salts.push_reserved(salt);
                Ok(number)
            }
            // Its room was reserved.
            Err(_) => unreachable!(),
        }
    }

    /// Leaves the first blocks. It takes one step for each block and each place of a row that goes,
    /// and no memory.
    pub fn cut(&mut self, count: u16)
        requires some { 1 ≤ count }
        requires within { count ≤ length self.old.parents }
        ensures { self.new ≡ cut_to self.old count }
    {
        let len = count as usize;
        self.ids.truncate(len);
        self.salts.truncate(len);
        self.table.cut(count);
    }

    /// How many blocks there are, from 1 to 512. What stands of the ids and of the parents stands
    /// here, for each caller; the laws of this crate say what follows for the graph.
    pub fn len(&self) -> u16
        ensures value { result ≡ length self.now.parents }
        ensures numbered { IsNumbered self.now }
    {
        self.table.len()
    }

    /// The number of the block with this id, in about the time of a look-up by hash.
    pub fn number(&self, id: &BlockId) -> Option<u16>
        ensures value { result ≡ position (nat_eq id.now) self.now.ids }
        ensures found { IfSome result (λ n. slice_get self.now.ids n ≡ Some id.now) }
        ensures none { IsNone result ↔ IsFalse (has self.now.ids id.now) }
        ensures within { IfSome result (λ n. n < length self.now.parents) }
    {
        match self.ids.get_index_of(id) {
            Some(place) => Some(place as u16),
            None => None,
        }
    }

    /// The id of a block, in a bounded number of steps.
    pub fn id(&self, n: u16) -> BlockId
        requires { n < length self.now.parents }
        ensures { slice_get self.now.ids n ≡ Some result }
    {
        self.ids[n as usize]
    }

    /// The rank of a block, its salt and its id, in a bounded number of steps. Ranks are ordered by
    /// salt, then by id, and no two blocks have one rank.
    pub fn rank(&self, n: u16) -> (u64, BlockId)
        requires { n < length self.now.parents }
        ensures { rank_of (graph_of self.now) n ≡ record { salt = result.0; id = result.1 } }
    {
        (self.salts[n as usize], self.ids[n as usize])
    }

    /// Which rule on ties the votes of these blocks follow.
    pub fn profile(&self) -> Profile
        ensures { result ≡ self.now.profile }
    {
        self.profile
    }

    /// The vote of a block that has two others in its past and finds a virtual vote on them there: the
    /// same, but that in profile 2 a tie is settled by their ranks. -1 is for x before y, +1 for y
    /// before x, and 0 is a tie.
    pub fn settled(&self, x: u16, y: u16, vote: i8) -> i8
        requires x_in { x < length self.now.parents }
        requires y_in { y < length self.now.parents }
        ensures { result ≡ settled_in (graph_of self.now) x y vote }
    {
        match self.profile {
            Profile::One => vote,
            Profile::Two => {
                if vote == 0 {
                    by_rank(&self.rank(x), &self.rank(y))
                } else {
                    vote
                }
            }
        }
    }

    /// The numbers of the blocks in the past of a block, ascending; the row is lent as it stands.
    pub fn past(&self, n: u16) -> &Row
        requires { n < length self.now.parents }
        ensures { result.now ≡ past (graph_of self.now) n }
    {
        self.table.past(n)
    }

    /// The numbers of the blocks that have this one in their past, ascending; the row is lent as it
    /// stands.
    pub fn future(&self, n: u16) -> &Row
        requires { n < length self.now.parents }
        ensures { result.now ≡
            future (graph_of self.now) (keys (graph_of self.now)) n }
    {
        self.table.future(n)
    }

    /// The numbers of a block and of those that have it in their past, ascending; the row is lent as
    /// it stands.
    pub fn closed(&self, n: u16) -> &Row
        requires { n < length self.now.parents }
        ensures { result.now ≡ closed (graph_of self.now) n }
    {
        self.table.closed(n)
    }

    /// Whether a is in the past of b, in a bounded number of steps.
    pub fn in_past(&self, a: u16, b: u16) -> bool
        requires a_in { a < length self.now.parents }
        requires b_in { b < length self.now.parents }
        ensures { result ≡ in_past (graph_of self.now) a b }
    {
        self.table.in_past(a, b)
    }

    /// How many pairs of blocks are unrelated, from 0 to 130,816, in a bounded number of steps.
    pub fn pair_count(&self) -> u32
        ensures value { result ≡ length (pairs_of self.now) }
        ensures bound { result ≤ 130816 }
    {
        self.table.pair_count()
    }

    /// Where the pairs begin whose higher number is n, and where they would stand if there are none; at
    /// the number of blocks, how many pairs there are. Those of a block stand from here up to where
    /// those of the next one begin. In a bounded number of steps.
    pub fn first_pair(&self, n: u16) -> u32
        requires { n ≤ length self.now.parents }
        ensures value { result ≡ length (pairs_below (graph_of self.now) n) }
        ensures from { (i x y : ℕ) → slice_get (pairs_of self.now) i ≡ Some (x, y) →
            (result ≤ i) ↔ (n ≤ y) }
        ensures within { result ≤ length (pairs_of self.now) }
    {
        self.table.first_pair(n)
    }

    /// An unrelated pair, the lower number first, in a bounded number of steps. Pairs stand by their higher number, and
    /// then by their lower one, so those of a new block come behind all others.
    pub fn pair(&self, i: u32) -> (u16, u16)
        requires { i < length (pairs_of self.now) }
        ensures pair { slice_get (pairs_of self.now) i ≡ Some result }
        ensures kind { IsPair self.now result }
    {
        self.table.pair(i)
    }

    /// Where the pair of two blocks stands among the unrelated pairs, in whichever order they are
    /// given, in a bounded number of steps. There is none where they are related or the same.
    pub fn pair_of(&self, x: u16, y: u16) -> Option<u32>
        requires x_in { x < length self.now.parents }
        requires y_in { y < length self.now.parents }
        ensures some { IfSome result (λ i.
            slice_get (pairs_of self.now) i ≡ Some (min x y, max x y)) }
        ensures only { (i : ℕ) →
            slice_get (pairs_of self.now) i ≡ Some (min x y, max x y) → result ≡ Some i }
        ensures none { IsNone result ↔
            IsTrue ((x == y) || related (graph_of self.now) x y) }
    {
        self.table.pair_of(x, y)
    }
}
