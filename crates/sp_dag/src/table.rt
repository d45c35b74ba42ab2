//! The parents of the present blocks by number, with all that is read from them. It stands apart
//! from the ids: contracts see the parents alone.

ghost use Rattle.std.specs.Prelude.{◌≡◌, ◌<◌, ◌≤◌, ◌++◌, ◌∷◌, ◌||◌, ◌==◌, ◌↔◌, [], ℕ, length, All, IfOk, OnOk, OnErr, IfSome, IsNone, IsTrue, slice_get, Some, min, max, take, vec_capacity, vec_len};
ghost use Rattle.sp_model.specs.Graph.{in_past, keys, past, future, related};
ghost use Rattle.sp_dag.specs.Closed.{closed};
ghost use Rattle.sp_dag.specs.Numbered.{pairs_below};
ghost use Rattle.sp_dag.specs.Shapes.{shape_of, pairs_in, IsPairIn};

use crate::indices::Indices;
use crate::numbers::Numbers;
use crate::pairs::{pairs_below, push_unrelated};
use crate::rows::{cut_futures, row_of, set_in_futures};
use sp_bits::Row;
use sp_ids::Memory;
use std::alloc::{AllocError, Global};
use std::marker::Model;

// Blocks by number. Contracts see the list of the parents of each.
pub(crate) struct Table {
    parents: Vec<Numbers>,
    pasts: Vec<Row>,
    futures: Vec<Row>,
    closed: Vec<Row>,
    pairs: Vec<(u16, u16)>,
    indices: Vec<Indices>,
    starts: Vec<u32>,
}

// Written out, so that where a table is let go there is one call, and not one for each of its lists.
impl Drop for Table {
    fn drop(self) {
        let Table {
            parents: _,
            pasts: _,
            futures: _,
            closed: _,
            pairs: _,
            indices: _,
            starts: _,
        } = self;
    }
}

impl Model for Table {
    ghost use Rattle.std.specs.Prelude.{ℕ, List};

    ghost Value = { List (List ℕ) };

    ghost use Rattle.sp_dag.specs.Right.{AreClosed, AreRight, AreStarts};

    ghost view = { λ t. t.parents.items };

    ghost invariant = { λ t.
        AreRight t.parents.items t.pasts.items t.futures.items t.pairs.items t.indices.items
        × AreStarts t.parents.items t.starts.items
        × AreClosed t.parents.items t.closed.items };
}

// Makes room for one block more in each of these lists.
fn make_room(
    parents: &mut Vec<Numbers>,
    pasts: &mut Vec<Row>,
    futures: &mut Vec<Row>,
    closed: &mut Vec<Row>,
    indices: &mut Vec<Indices>,
    starts: &mut Vec<u32>,
) -> Result<(), AllocError>
    ensures parents { parents.new.items ≡ parents.old.items }
    ensures pasts { pasts.new.items ≡ pasts.old.items }
    ensures futures { futures.new.items ≡ futures.old.items }
    ensures closed { closed.new.items ≡ closed.old.items }
    ensures indices { indices.new.items ≡ indices.old.items }
    ensures starts { starts.new.items ≡ starts.old.items }
    ensures room { OnOk result ((vec_len parents.new < vec_capacity parents.new)
        × (vec_len pasts.new < vec_capacity pasts.new)
        × (vec_len futures.new < vec_capacity futures.new)
        × (vec_len closed.new < vec_capacity closed.new)
        × (vec_len indices.new < vec_capacity indices.new)
        × (vec_len starts.new < vec_capacity starts.new)) }
{
    parents.reserve(1)?;
    pasts.reserve(1)?;
    futures.reserve(1)?;
    closed.reserve(1)?;
    indices.reserve(1)?;
    starts.reserve(1)
}

impl Table {
    // No blocks.
    pub(crate) fn new(alloc: Global) -> Table
        ensures { result ≡ [] }
    {
        Table {
            parents: Vec::new(alloc),
            pasts: Vec::new(alloc),
            futures: Vec::new(alloc),
            closed: Vec::new(alloc),
            pairs: Vec::new(alloc),
            indices: Vec::new(alloc),
            starts: Vec::new(alloc),
        }
    }

    // Adds a block with these parents, and answers its number.
    pub(crate) fn add(&mut self, alloc: Global, parents: Numbers) -> Result<u16, Memory>
        requires room { length self.old < 512 }
        requires before { All (λ p. p < length self.old) parents }
        ensures ok { OnOk result (self.new ≡ self.old ++ parents ∷ []) }
        ensures number { IfOk result (λ n. n ≡ length self.old) }
        ensures err { OnErr result (self.new ≡ self.old) }
    {
        let count = self.parents.len();
        make_room(
            &mut self.parents,
            &mut self.pasts,
            &mut self.futures,
            &mut self.closed,
            &mut self.indices,
            &mut self.starts,
        )?;
        self.pairs.reserve(count)?;
        let mut indices = Vec::with_capacity(alloc, count)?;
        let number = count as u16;
        let past = row_of(&self.pasts, parents.as_slice());
        let start = self.pairs.len() as u32;
        push_unrelated(&mut self.pairs, &mut indices, &past, number);
        set_in_futures(&mut self.futures, &past, number);
        set_in_futures(&mut self.closed, &past, number);
        let mut own = Row::empty();
        own.set(number);
        self.futures.push_reserved(Row::empty());
        self.closed.push_reserved(own);
        self.pasts.push_reserved(past);
        self.indices.push_reserved(Indices::of(indices));
        self.starts.push_reserved(start);
        self.parents.push_reserved(parents);
        Ok(number)
    }

    // Leaves the first blocks.
    pub(crate) fn cut(&mut self, count: u16)
        requires { count ≤ length self.old }
        ensures { self.new ≡ take count self.old }
    {
        let len = count as usize;
        let pairs = pairs_below(&self.pairs, count);
        self.parents.truncate(len);
        self.pasts.truncate(len);
        self.futures.truncate(len);
        self.closed.truncate(len);
        self.indices.truncate(len);
        self.starts.truncate(len);
        self.pairs.truncate(pairs);
        cut_futures(&mut self.futures, count);
        cut_futures(&mut self.closed, count);
    }

    pub(crate) fn len(&self) -> u16
        ensures value { result ≡ length self.now }
        ensures bound { length self.now ≤ 512 }
    {
        self.parents.len() as u16
    }

    pub(crate) fn past(&self, number: u16) -> &Row
        requires { number < length self.now }
        ensures { result.now ≡ past (shape_of self.now) number }
    {
        &self.pasts[number as usize]
    }

    pub(crate) fn future(&self, number: u16) -> &Row
        requires { number < length self.now }
        ensures { result.now ≡ future (shape_of self.now) (keys (shape_of self.now)) number }
    {
        &self.futures[number as usize]
    }

    pub(crate) fn closed(&self, number: u16) -> &Row
        requires { number < length self.now }
        ensures { result.now ≡ closed (shape_of self.now) number }
    {
        &self.closed[number as usize]
    }

    pub(crate) fn in_past(&self, a: u16, b: u16) -> bool
        requires a_in { a < length self.now }
        requires b_in { b < length self.now }
        ensures { result ≡ in_past (shape_of self.now) a b }
    {
        self.pasts[b as usize].test(a)
    }

    pub(crate) fn pair_count(&self) -> u32
        ensures value { result ≡ length (pairs_in self.now) }
        ensures bound { result ≤ 130816 }
    {
        self.pairs.len() as u32
    }

    // Where the pairs of a block begin, and at the number of blocks, how many there are.
    pub(crate) fn first_pair(&self, number: u16) -> u32
        requires { number ≤ length self.now }
        ensures { result ≡ length (pairs_below (shape_of self.now) number) }
    {
        if (number as usize) < self.starts.len() {
            self.starts[number as usize]
        } else {
            self.pairs.len() as u32
        }
    }

    pub(crate) fn pair(&self, index: u32) -> (u16, u16)
        requires { index < length (pairs_in self.now) }
        ensures pair { slice_get (pairs_in self.now) index ≡ Some result }
        ensures kind { IsPairIn self.now result }
    {
        self.pairs[index as usize]
    }

    pub(crate) fn pair_of(&self, x: u16, y: u16) -> Option<u32>
        requires x_in { x < length self.now }
        requires y_in { y < length self.now }
        ensures some { IfSome result (λ i.
            slice_get (pairs_in self.now) i ≡ Some (min x y, max x y)) }
        ensures only { (i : ℕ) → slice_get (pairs_in self.now) i ≡ Some (min x y, max x y) →
            result ≡ Some i }
        ensures none { IsNone result ↔ IsTrue ((x == y) || related (shape_of self.now) x y) }
    {
        let low = x.min(y);
        let high = x.max(y);
        self.indices[high as usize].at(low)
    }
}
