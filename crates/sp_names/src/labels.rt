//! Keys with their names, in the order in which they were given. The places of keys are kept in an
//! ordered map: ids and words come from strangers, and a hash map whose seed is known could be made
//! slow by them.

ghost use Rattle.std.specs.Prelude.{◌≡◌, ◌≤◌, ◌<◌, [], IfSome, length, OnErr, OnOk, option_map, position, slice_get, Some};
ghost use Rattle.std.specs.Option.{option_copied};
ghost use Rattle.std.specs.List.{list_any};
ghost use Rattle.std.specs.Map.{lookup};
ghost use Rattle.std.specs.Ordering.{is_eq};
ghost use Rattle.sp_names.specs.Labels.{with_key};

use crate::name::Name;
use sp_ids::Memory;
use std::alloc::Global;
use std::collections::BTreeMap;
use std::marker::Model;

/// Keys, each with its name, in the order in which they were given. Contracts see the list of them.
#[derive(Drop)]
pub(crate) struct Labels<K: Ord + Copy> {
    places: BTreeMap<K, usize>,
    list: Vec<(K, Name)>,
}

impl<K: Ord + Copy> Model for Labels<K> {
    ghost use Rattle.std.specs.Prelude.{ℕ, List};
    ghost use Rattle.sp_names.specs.Places.{HasPlaces};

    ghost Value = { List (K × List ℕ) };

    ghost view = { λ labels. labels.list.items };

    ghost invariant = { λ labels. HasPlaces K.cmp labels.places labels.list.items };
}

impl<K: Ord + Copy> Labels<K> {
    /// None yet.
    pub(crate) fn new(alloc: Global) -> Labels<K>
        ensures { result ≡ [] }
    {
        Labels {
            places: BTreeMap::new(alloc),
            list: Vec::new(alloc),
        }
    }

    /// How many there are.
    pub(crate) fn len(&self) -> usize
        ensures { result ≡ length self.now }
    {
        self.list.len()
    }

    // The place of a key.
    fn place_of(&self, key: &K) -> Option<usize>
        ensures { result ≡ position (λ label. is_eq (K.cmp key.now label.0)) self.now }
    {
        self.places.get(key).copied()
    }

    // The key and the name at a place.
    fn at(&self, place: usize) -> &(K, Name)
        requires { place < length self.now }
        ensures { slice_get self.now place ≡ Some result.now }
    {
        &self.list[place]
    }

    /// The key that was named at a place, counted from 0.
    pub(crate) fn key_at(&self, place: usize) -> K
        requires { place < length self.now }
        ensures { option_map (λ label. label.0) (slice_get self.now place) ≡ Some result }
    {
        self.at(place).0
    }

    /// The bytes of the name of a key, or `None` where it has none. The time is that of a look-up in
    /// an ordered map.
    pub(crate) fn name_of(&self, key: &K) -> Option<&[u8]>
        ensures name { option_copied result ≡ lookup (λ other. is_eq (K.cmp key.now other)) self.now }
        ensures some { IfSome result (λ name. 1 ≤ length name.now) }
        ensures short { IfSome result (λ name. length name.now ≤ 64) }
    {
        match self.place_of(key) {
            Some(place) => {
                let label = self.at(place);
                Some(label.1.as_slice())
            }
            None => None,
        }
    }

    /// Whether a key has a name. The time is that of a look-up in an ordered map.
    pub(crate) fn has_name(&self, key: &K) -> bool
        ensures { result ≡ list_any (λ label. is_eq (K.cmp key.now label.0)) self.now }
    {
        self.places.contains_key(key)
    }

    /// Names a key behind the others, unless it has a name. The time is that of a look-up in an
    /// ordered map.
    ///
    /// # Errors
    ///
    /// `Memory` where there was none for it; the labels are as before.
    pub(crate) fn add(&mut self, key: K, name: Name) -> Result<(), Memory>
        ensures ok { OnOk result
            (self.new ≡ with_key (λ x y. is_eq (K.cmp x y)) self.old key name) }
        ensures err { OnErr result (self.new ≡ self.old) }
    {
        if self.places.contains_key(&key) {
            return Ok(());
        }
        let place = self.len();
        self.list.reserve(1)?;
        self.places.insert(key, place)?;
        self.list.push_reserved((key, name));
        Ok(())
    }
}
