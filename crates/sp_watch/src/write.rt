//! The lines of a watch, written to a sink.

ghost use Rattle.std.specs.Prelude.{◌≡◌, ◌<◌, All, length, OnErr, OnOk};
ghost use Rattle.std.specs.List.{flat_map};
ghost use Rattle.std.specs.Io.KnownBytes.{Appends};
ghost use Rattle.sp_io.specs.Causes.{HasCause};
ghost use Rattle.sp_io.specs.Whole.{AppendsFront};
ghost use Rattle.sp_watch.specs.Lines.{change_at, held_at, held_of, IsOfItem};

use crate::item::Change;
use crate::lines::{change_line, held_line};
use crate::watch::Watch;
use sp_io::{Failed, Sink, write_whole};

/// Writes the line of a change, with the item's words and both values. It takes no memory.
///
/// # Errors
///
/// `Failed` where a call of the sink fails. The sink keeps what it took before.
pub fn write_change<K: Sink>(watch: &Watch, change: &Change, sink: &mut K) -> Result<(), Failed>
    requires within { change.now.item < length watch.now.entries }
    requires kind { IsOfItem watch.now.entries change.now }
    ensures ok { OnOk result
        (Appends (K.taken sink.old) (K.taken sink.new) (change_at watch.now.entries change.now)) }
    ensures err { OnErr result
        (AppendsFront (K.taken sink.old) (K.taken sink.new) (change_at watch.now.entries change.now)) }
    ensures cause { HasCause (K.faults sink.old) (K.faults sink.new) result }
{
    let entry = watch.entry(change.item);
    let line = change_line(&entry.item, change);
    write_whole(sink, line.as_slice())
}

/// Writes the line of an item that says since which arrival its value stands, and how many arrivals
/// changed it. It takes no memory.
///
/// # Errors
///
/// `Failed` where a call of the sink fails. The sink keeps what it took before.
pub fn write_held<K: Sink>(watch: &Watch, item: u8, sink: &mut K) -> Result<(), Failed>
    requires { item < length watch.now.entries }
    ensures ok { OnOk result
        (Appends (K.taken sink.old) (K.taken sink.new) (held_at watch.now.entries item)) }
    ensures err { OnErr result
        (AppendsFront (K.taken sink.old) (K.taken sink.new) (held_at watch.now.entries item)) }
    ensures cause { HasCause (K.faults sink.old) (K.faults sink.new) result }
{
    let entry = watch.entry(item);
    let line = held_line(&entry.item, entry.since, entry.changes);
    write_whole(sink, line.as_slice())
}

/// Writes the lines of changes, in their order. It takes no memory.
///
/// # Errors
///
/// `Failed` where a call of the sink fails. The sink keeps what it took before.
pub fn write_changes<K: Sink>(watch: &Watch, changes: &[Change], sink: &mut K) -> Result<(), Failed>
    requires within { All (λ change. change.item < length watch.now.entries) changes.now }
    requires kinds { All (IsOfItem watch.now.entries) changes.now }
    ensures ok { OnOk result (Appends (K.taken sink.old) (K.taken sink.new)
        (flat_map (change_at watch.now.entries) changes.now)) }
    ensures err { OnErr result (AppendsFront (K.taken sink.old) (K.taken sink.new)
        (flat_map (change_at watch.now.entries) changes.now)) }
    ensures cause { HasCause (K.faults sink.old) (K.faults sink.new) result }
{
    'each: for place in 0..changes.len() {
        let change = &changes[place];
        write_change(watch, change, sink)?;
    }
    Ok(())
}

/// Writes for each item, in their order, since which arrival its value stands. It takes no memory.
///
/// # Errors
///
/// `Failed` where a call of the sink fails. The sink keeps what it took before.
pub fn write_all_held<K: Sink>(watch: &Watch, sink: &mut K) -> Result<(), Failed>
    ensures ok { OnOk result (Appends (K.taken sink.old) (K.taken sink.new)
        (flat_map held_of watch.now.entries)) }
    ensures err { OnErr result (AppendsFront (K.taken sink.old) (K.taken sink.new)
        (flat_map held_of watch.now.entries)) }
    ensures cause { HasCause (K.faults sink.old) (K.faults sink.new) result }
{
    'items: for item in 0..watch.len() as u8 {
        write_held(watch, item, sink)?;
    }
    Ok(())
}
