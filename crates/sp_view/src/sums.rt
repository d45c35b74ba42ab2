//! Sums of votes that are kept beside a view, one for each pair, so that the virtual vote of its members is a look-up.

ghost use Rattle.std.specs.Prelude.{◌≡◌, ◌≢◌, ◌<◌, ◌≤◌, ◌⊎◌, [], ℕ, ℤ, length, IfOk, OnOk, OnErr, All, Contains, pos, slice_get, slice_index_or, Some, vec_len, vec_capacity};
ghost use Rattle.sp_model.specs.Votes.{sgn};
ghost use Rattle.sp_dag.specs.Numbered.{pairs_of};
ghost use Rattle.sp_view.specs.Summed.{HasTurned};

use crate::tally::side;
use sp_dag::Dag;
use sp_ids::Memory;
use std::alloc::{AllocError, Global};
use std::marker::Model;

/// The sums of a set's votes, by the numbers of the pairs. Contracts see the list.
#[derive(Drop)]
pub struct Sums {
    alloc: Global,
    list: Vec<i32>,
}

impl Model for Sums {
    ghost use Rattle.std.specs.Prelude.{ℤ, List};

    ghost Value = { List ℤ };

    ghost view = { λ sums. sums.list.items };
}

// Adds zeros up to a length.
fn lengthen(list: &mut Vec<i32>, long: usize)
    requires short { vec_len list.old ≤ long }
    requires room { long ≤ vec_capacity list.old }
    ensures long { length list.new.items ≡ long }
    ensures same { (i : ℕ) → i < length list.old.items →
        slice_get list.new.items i ≡ slice_get list.old.items i }
{
    'sums: for _ in list.len()..long {
        list.push_reserved(0);
    }
}

// The sum of a pair, if there is one.
fn sum_at(sums: &[i32], pair: u32) -> Option<i32>
    ensures { result ≡ slice_get sums.now pair }
{
    match sums.get(pair as usize) {
        Some(sum) => Some(*sum),
        None => None,
    }
}

// Notes a pair, where it has an old sum and a new one, of other signs.
fn note_turned(
    list: &mut Vec<u32>,
    pair: u32,
    old: Option<i32>,
    new: Option<i32>,
) -> Result<(), AllocError>
    ensures within { OnOk result ((n : ℕ) → pair < n → All (λ j. j < n) list.old.items →
        All (λ j. j < n) list.new.items) }
    ensures kept { OnOk result ((j : ℕ) → Contains list.old.items j → Contains list.new.items j) }
    ensures turned { OnOk result ((a b : ℤ) → old ≡ Some a → new ≡ Some b → sgn a ≢ sgn b →
        Contains list.new.items pair) }
    ensures only { OnOk result ((j : ℕ) → Contains list.new.items j →
        Contains list.old.items j ⊎ ((j ≡ pair) × HasTurned old new)) }
{
    let Some(old) = old else { return Ok(()) };
    let Some(new) = new else { return Ok(()) };
    if side(old, 0) == side(new, 0) {
        return Ok(());
    }
    list.push(pair)?;
    Ok(())
}

// The first pairs, so many, that have a sum in both lists, of other signs.
fn turned_of(alloc: Global, count: u32, older: &[i32], newer: &[i32]) -> Result<Vec<u32>, Memory>
    ensures within { IfOk result (λ list. All (λ i. i < count) list.items) }
    ensures turned { IfOk result (λ list. (i : ℕ) (a b : ℤ) → i < count →
        slice_get older.now i ≡ Some a → slice_get newer.now i ≡ Some b → sgn a ≢ sgn b →
        Contains list.items i) }
    ensures only { IfOk result (λ list. (i : ℕ) → Contains list.items i →
        HasTurned (slice_get older.now i) (slice_get newer.now i)) }
{
    let mut list = Vec::new(alloc);
    'pairs: for pair in 0..count {
        note_turned(&mut list, pair, sum_at(older, pair), sum_at(newer, pair))?;
    }
    Ok(list)
}

impl Sums {
    /// No sums.
    pub fn new(alloc: Global) -> Sums
        ensures { result ≡ [] }
    {
        Sums {
            alloc,
            list: Vec::new(alloc),
        }
    }

    /// As many sums as a graph has pairs, at least. Those that are there stay.
    ///
    /// # Errors
    ///
    /// Memory was refused; no sum is there that wasn't.
    pub fn grow(&mut self, dag: &Dag) -> Result<(), Memory>
        ensures long { OnOk result (length (pairs_of dag.now) ≤ length self.new) }
        ensures more { length self.old ≤ length self.new }
        ensures same { (i : ℕ) → i < length self.old →
            slice_get self.new i ≡ slice_get self.old i }
        ensures err { OnErr result (self.new ≡ self.old) }
    {
        let pairs = dag.pair_count() as usize;
        if pairs <= self.list.len() {
            return Ok(());
        }
        self.list.reserve(pairs - self.list.len())?;
        lengthen(&mut self.list, pairs);
        Ok(())
    }

    /// The same sums once more.
    ///
    /// # Errors
    ///
    /// Memory was refused.
    pub fn fork(&self) -> Result<Sums, Memory>
        ensures { IfOk result (λ sums. sums ≡ self.now) }
    {
        let mut list = Vec::with_capacity(self.alloc, self.list.len())?;
        list.extend_from_slice(self.list.as_slice())?;
        Ok(Sums {
            alloc: self.alloc,
            list,
        })
    }

    /// The virtual vote on a pair: the sign of its sum.
    pub fn virtual_vote(&self, pair: u32) -> i8
        requires { pair < length self.now }
        ensures { result ≡ sgn (slice_index_or self.now pair (pos 0)) }
    {
        side(self.list[pair as usize], 0)
    }

    /// The numbers of the pairs on which the virtual vote is another one than by older sums, where there are both.
    ///
    /// # Errors
    ///
    /// Memory was refused.
    pub fn turned(&self, dag: &Dag, older: &Sums) -> Result<Vec<u32>, Memory>
        ensures within { IfOk result (λ list. All (λ i. i < length (pairs_of dag.now)) list.items) }
        ensures turned { IfOk result (λ list. (i : ℕ) (a b : ℤ) → i < length (pairs_of dag.now) →
            slice_get older.now i ≡ Some a → slice_get self.now i ≡ Some b → sgn a ≢ sgn b →
            Contains list.items i) }
        ensures only { IfOk result (λ list. (i : ℕ) → Contains list.items i →
            HasTurned (slice_get older.now i) (slice_get self.now i)) }
    {
        let list = turned_of(
            self.alloc,
            dag.pair_count(),
            older.list.as_slice(),
            self.list.as_slice(),
        )?;
        Ok(list)
    }

    // The sum of a pair, if there is one.
    pub(crate) fn get(&self, pair: u32) -> Option<i32>
        ensures { result ≡ slice_get self.now pair }
    {
        sum_at(&self.list, pair)
    }

    // Writes the sum of a pair.
    pub(crate) fn set(&mut self, pair: u32, sum: i32)
        requires { pair < length self.old }
        ensures sum { slice_get self.new pair ≡ Some sum }
        ensures others { (j : ℕ) → j ≢ pair → slice_get self.new j ≡ slice_get self.old j }
        ensures as_long { length self.new ≡ length self.old }
    {
        self.list[pair as usize] = sum;
    }
}
