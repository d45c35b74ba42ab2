//! Which transactions spend an outpoint. The map is an ordered one, since strangers choose the
//! outpoints: a look-up takes logarithmic time whatever they choose.

ghost use Rattle.std.specs.Prelude.{◌≡◌, ◌++◌, ◌∷◌, [], ◌<◌, All, List, cond, false, take, IfOk, OnOk, OnErr, ℕ};
ghost use Rattle.sp_ids.specs.declared.outpoint.Outpoint.{Outpoint};
ghost use Rattle.sp_carry.specs.Payment.{is_same_outpoint};
ghost use Rattle.sp_carry.specs.Lookups.{kept_at, AreApart, IsForgotten, IsNoted, IsPartly};

use crate::numbers::Numbers;
use sp_ids::Outpoint;
use sp_tx::Input;
use std::alloc::{AllocError, Global};
use std::collections::BTreeMap;

/// The numbers of the spenders of each outpoint.
#[derive(Drop)]
pub(crate) struct Spenders {
    lists: BTreeMap<Outpoint, Numbers>,
}

// Notes a number under an outpoint.
fn note(
    alloc: Global,
    lists: &mut BTreeMap<Outpoint, Numbers>,
    from: Outpoint,
    number: u32,
) -> Result<(), AllocError>
    ensures ok { OnOk result ((other : Outpoint) →
        kept_at lists.new other ≡ kept_at lists.old other ++ cond (is_same_outpoint other from) (number ∷ []) []) }
    ensures err { OnErr result ((other : Outpoint) → kept_at lists.new other ≡ kept_at lists.old other) }
{
    match lists.get_mut(&from) {
        Some(list) => list.push(number),
        None => {
            lists.insert(from, Numbers::one(alloc, number)?)?;
            Ok(())
        }
    }
}

// Notes a number under the outpoint of each input. After a refusal it is noted under the first ones.
fn note_all(
    alloc: Global,
    lists: &mut BTreeMap<Outpoint, Numbers>,
    inputs: &[Input],
    number: u32,
) -> Result<(), AllocError>
    requires { AreApart inputs.now }
    ensures ok { OnOk result (IsNoted lists.old lists.new inputs.now number) }
    ensures err { OnErr result ((count : ℕ) × IsNoted lists.old lists.new (take count inputs.now) number) }
{
    'inputs: for input in inputs {
        note(alloc, lists, input.from, number)?;
    }
    Ok(())
}

// Takes a number back under an outpoint.
fn forget(lists: &mut BTreeMap<Outpoint, Numbers>, from: Outpoint, number: u32)
    ensures here { (first : List ℕ) → All (λ m. m < number) first → IsPartly number first (kept_at lists.old from) →
        kept_at lists.new from ≡ first }
    ensures others { (other : Outpoint) → is_same_outpoint other from ≡ false → kept_at lists.new other ≡ kept_at lists.old other }
{
    if let Some(list) = lists.get_mut(&from) {
        list.forget(number);
    }
}

// Takes a number back under the outpoint of each input.
fn forget_all(lists: &mut BTreeMap<Outpoint, Numbers>, inputs: &[Input], number: u32)
    ensures { (first : Outpoint → List ℕ) → IsForgotten first lists.old lists.new inputs.now number }
{
    'inputs: for input in inputs {
        forget(lists, input.from, number);
    }
}

// The numbers that were noted under an outpoint.
fn noted<'a>(lists: &'a BTreeMap<Outpoint, Numbers>, from: &Outpoint) -> &'a [u32]
    ensures { result.now ≡ kept_at lists.now from.now }
{
    match lists.get(from) {
        Some(list) => list.as_slice(),
        None => &[],
    }
}

impl Spenders {
    // Nobody yet.
    pub(crate) fn new(alloc: Global) -> Spenders
        ensures { (from : Outpoint) → kept_at result.lists from ≡ [] }
    {
        Spenders {
            lists: BTreeMap::new(alloc),
        }
    }

    // The numbers of the spenders of an outpoint.
    pub(crate) fn of(&self, from: &Outpoint) -> &[u32]
        ensures { result.now ≡ kept_at self.now.lists from.now }
    {
        noted(&self.lists, from)
    }

    // Notes one more spender, with all its inputs. After a refusal all is as before.
    pub(crate) fn add(
        &mut self,
        alloc: Global,
        inputs: &[Input],
        number: u32,
    ) -> Result<(), AllocError>
        requires apart { AreApart inputs.now }
        requires below { (from : Outpoint) → All (λ m. m < number) (kept_at self.old.lists from) }
        ensures ok { OnOk result (IsNoted self.old.lists self.new.lists inputs.now number) }
        ensures err { OnErr result ((from : Outpoint) → kept_at self.new.lists from ≡ kept_at self.old.lists from) }
    {
        let noted = note_all(alloc, &mut self.lists, inputs, number);
        if noted.is_err() {
            forget_all(&mut self.lists, inputs, number);
        }
        noted
    }

    // Takes one spender back, with all its inputs.
    pub(crate) fn take_back(&mut self, inputs: &[Input], number: u32)
        ensures { (first : Outpoint → List ℕ) → IsForgotten first self.old.lists self.new.lists inputs.now number }
    {
        forget_all(&mut self.lists, inputs, number);
    }
}
