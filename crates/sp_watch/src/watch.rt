//! The watch over arrivals.

ghost use Rattle.std.specs.Prelude.{◌≡◌, ◌≤◌, ◌<◌, ◌-◌, ◌^◌, All, length, map, IfOk, OnErr, OnOk, slice_get, Some};
ghost use Rattle.std.specs.Option.{option_map};
ghost use Rattle.sp_watch.specs.Lines.{IsOfItem};
ghost use Rattle.sp_watch.specs.Watching.{changes_from, changes_in, first_seen, seen, seen_all, watch_of};

use crate::item::{Change, Entry, Item, Value};
use crate::values::{is_same, value_of};
use sp_engine::Engine;
use sp_ids::Memory;
use std::alloc::Global;
use std::marker::Model;

/// Items, at most 64, with what was last seen of each. Contracts see these, and the number of
/// arrivals.
#[derive(Drop)]
pub struct Watch {
    alloc: Global,
    entries: Vec<Entry>,
    arrivals: u32,
}

impl Model for Watch {
    ghost use Rattle.sp_watch.specs.Lines.{IsOfItem};
    ghost use Rattle.sp_watch.specs.Watching.{AreNoted, Watched};

    ghost Value = { Watched };

    ghost view = { λ w. record { entries = w.entries.items; arrivals = w.arrivals } };

    ghost invariant = { λ w. AreNoted w.entries.items w.arrivals };
}

impl Entry {
    // The item of this value, which nothing has changed yet.
    fn first(engine: &Engine, item: Item) -> Entry
        ensures { result ≡ first_seen engine.now.profile engine.now.kept item }
    {
        Entry {
            item,
            value: value_of(engine, &item),
            since: 0,
            changes: 0,
        }
    }

    // The item after an arrival.
    fn after(self, engine: &Engine, arrival: u32) -> Entry
        requires few { self.changes < arrival }
        ensures { result ≡ seen engine.now.profile arrival engine.now.kept self }
    {
        let value = value_of(engine, &self.item);
        if is_same(self.value, value) {
            self
        } else {
            Entry {
                item: self.item,
                value,
                since: arrival,
                changes: self.changes + 1,
            }
        }
    }
}

// The items whose value isn't the noted one.
fn changes_of(alloc: Global, engine: &Engine, entries: &[Entry]) -> Result<Vec<Change>, Memory>
    requires few { length entries.now ≤ 64 }
    ensures { IfOk result (λ changes.
        changes.items ≡ changes_from engine.now.profile 0 entries.now engine.now.kept) }
{
    let mut changes = Vec::new(alloc);
    let mut place: u8 = 0;
    'entries: for entry in entries {
        let value = value_of(engine, &entry.item);
        if !is_same(entry.value, value) {
            changes.push(Change {
                item: place,
                from: entry.value,
                to: value,
            })?;
        }
        place += 1;
    }
    Ok(changes)
}

// Notes each item after an arrival.
fn note_all(engine: &Engine, entries: &mut [Entry], arrival: u32)
    requires few { All (λ entry. entry.changes < arrival) entries.old }
    ensures { entries.new ≡ map (seen engine.now.profile arrival engine.now.kept) entries.old }
{
    'places: for place in 0..entries.len() {
        let entry = entries[place];
        entries[place] = entry.after(engine, arrival);
    }
}

impl Watch {
    /// Notes what the present blocks say of these items, before any arrival.
    ///
    /// # Errors
    ///
    /// Memory was refused.
    pub fn new(alloc: Global, items: &[Item], engine: &Engine) -> Result<Watch, Memory>
        requires some { 1 ≤ length items.now }
        requires few { length items.now ≤ 64 }
        ensures { IfOk result (λ watch. watch ≡ watch_of engine.now.profile items.now engine.now.kept) }
    {
        let mut entries = Vec::with_capacity(alloc, items.len())?;
        'items: for item in items {
            entries.push(Entry::first(engine, *item))?;
        }
        Ok(Watch {
            alloc,
            entries,
            arrivals: 0,
        })
    }

    /// Counts one arrival, and answers the items whose value isn't the noted one, in their order, and
    /// notes the new values. It takes the time of one question for each item.
    ///
    /// # Errors
    ///
    /// Memory was refused; the watch is as before.
    pub fn see(&mut self, engine: &Engine) -> Result<Vec<Change>, Memory>
        requires few { self.old.arrivals < 2 ^ 32 - 1 }
        ensures changes { IfOk result (λ changes.
            changes.items ≡ changes_in engine.now.profile self.old engine.now.kept) }
        ensures noted { OnOk result (self.new ≡ seen_all engine.now.profile self.old engine.now.kept) }
        ensures within { IfOk result (λ changes.
            All (λ change. change.item < length self.new.entries) changes.items) }
        ensures kinds { IfOk result (λ changes. All (IsOfItem self.new.entries) changes.items) }
        ensures err { OnErr result (self.new ≡ self.old) }
    {
        let changes = changes_of(self.alloc, engine, &self.entries)?;
        self.arrivals += 1;
        note_all(engine, &mut self.entries, self.arrivals);
        Ok(changes)
    }

    /// How many arrivals were counted.
    pub fn arrivals(&self) -> u32
        ensures { result ≡ self.now.arrivals }
    {
        self.arrivals
    }

    /// How many items there are.
    pub fn len(&self) -> usize
        ensures value { result ≡ length self.now.entries }
        ensures few { result ≤ 64 }
    {
        self.entries.len()
    }

    /// An item, with what was last seen of it. Items are counted from 0.
    pub(crate) fn entry(&self, item: u8) -> Entry
        requires { item < length self.now.entries }
        ensures { slice_get self.now.entries item ≡ Some result }
    {
        self.entries[usize::from(item)]
    }

    /// The number of the arrival that changed an item last, 0 where none did.
    pub fn since(&self, item: u8) -> u32
        requires { item < length self.now.entries }
        ensures { option_map (λ entry. entry.since) (slice_get self.now.entries item) ≡ Some result }
    {
        self.entry(item).since
    }

    /// How many arrivals changed an item.
    pub fn changes(&self, item: u8) -> u32
        requires { item < length self.now.entries }
        ensures { option_map (λ entry. entry.changes) (slice_get self.now.entries item) ≡ Some result }
    {
        self.entry(item).changes
    }

    /// The value of an item that was last seen.
    pub fn value(&self, item: u8) -> Value
        requires { item < length self.now.entries }
        ensures { option_map (λ entry. entry.value) (slice_get self.now.entries item) ≡ Some result }
    {
        self.entry(item).value
    }
}
