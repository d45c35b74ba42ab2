//! Keys in the order of naming, apart from the labels since only texts ask for it.

ghost use Rattle.std.specs.Prelude.{◌≡◌, ◌++◌, ◌∷◌, [], filter, if◌then◌else◌, IfOk, map, not, OnOk};
ghost use Rattle.std.specs.List.{list_any};
ghost use Rattle.std.specs.List.Sorted.{IsSorted};
ghost use Rattle.std.specs.Ordering.{is_eq};
ghost use Rattle.sp_names.specs.Labels.{by_naming};

use crate::labels::Labels;
use sp_ids::Memory;
use std::alloc::Global;

// Whether a key is one of these, which ascend. The time is that of a binary search.
fn is_among<K: Ord>(keys: &[K], key: &K) -> bool
    requires { IsSorted K.cmp keys.now }
    ensures { result ≡ list_any (λ other. is_eq (K.cmp other key.now)) keys.now }
{
    keys.binary_search(key).is_ok()
}

/// Puts a key behind the others, where it is wanted.
///
/// # Errors
///
/// `Memory` where there was none for it.
pub fn push_wanted<K: Copy>(keys: &mut Vec<K>, key: K, wanted: bool) -> Result<(), Memory>
    ensures { OnOk result
        (keys.new.items ≡ keys.old.items ++ (if wanted then key ∷ [] else [])) }
{
    if wanted {
        keys.push(key)?;
    }
    Ok(())
}

impl<K: Ord + Copy> Labels<K> {
    // Those of the keys, which ascend, that have names, in the order of naming.
    fn named(&self, alloc: Global, keys: &[K]) -> Result<Vec<K>, Memory>
        requires { IsSorted K.cmp keys.now }
        ensures { IfOk result (λ named. named.items ≡ filter
            (λ key. list_any (λ other. is_eq (K.cmp other key)) keys.now)
            (map (λ label. label.0) self.now)) }
    {
        let mut named = Vec::new(alloc);
        'place: for place in 0..self.len() {
            let key = self.key_at(place);
            push_wanted(&mut named, key, is_among(keys, &key))?;
        }
        Ok(named)
    }

    // Puts those of the keys that have no name behind the others.
    fn push_unnamed(&self, keys: &[K], ordered: &mut Vec<K>) -> Result<(), Memory>
        ensures { OnOk result (ordered.new.items ≡ ordered.old.items ++ filter
            (λ key. not (list_any (λ label. is_eq (K.cmp key label.0)) self.now)) keys.now) }
    {
        'key: for key in keys {
            push_wanted(ordered, *key, !self.has_name(key))?;
        }
        Ok(())
    }

    /// These keys, which ascend, in the order of naming: those that have names, and behind them the
    /// others, ascending. The time is that of a look-up of each of the names and of each key.
    ///
    /// # Errors
    ///
    /// `Memory` where there was none for them.
    pub(crate) fn in_order(&self, alloc: Global, keys: &[K]) -> Result<Vec<K>, Memory>
        requires { IsSorted K.cmp keys.now }
        ensures { IfOk result (λ ordered.
            ordered.items ≡ by_naming (λ x y. is_eq (K.cmp x y)) self.now keys.now) }
    {
        let mut ordered = self.named(alloc, keys)?;
        self.push_unnamed(keys, &mut ordered)?;
        Ok(ordered)
    }
}
