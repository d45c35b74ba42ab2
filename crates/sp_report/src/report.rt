//! The report: the blocks, the accepted transactions and the balances.

ghost use Rattle.std.specs.Prelude.{◌≡◌, ◌≤◌, ◌++◌, false, length, OnErr, OnOk};
ghost use Rattle.std.specs.List.{flat_map};
ghost use Rattle.std.specs.Io.KnownBytes.{Appends};
ghost use Rattle.sp_io.specs.Causes.{HasCause};
ghost use Rattle.sp_io.specs.Whole.{AppendsFront, Wrote};
ghost use Rattle.sp_report.specs.Naming.{labels_of};
ghost use Rattle.sp_report.specs.Texts.{accepted_text, all_accepted_text, all_paid_text, counts_text, paid_text};

use crate::ask::Ask;
use crate::asks::line_of;
use crate::line::Line;
use crate::lines::{accepted_count_line, balance_count_line, blocks_line, tx_line};
use crate::naming::{Naming, tx_label};
use sp_engine::{Engine, TxState};
use sp_ids::{Lock, TxId};
use sp_io::{Failed, Page, Sink};

// The line of how many blocks are present, and how many wait.
fn counts_line(engine: &Engine) -> Line
    ensures { result ≡ counts_text engine.now.kept }
{
    blocks_line(engine.present(), engine.waiting())
}

// The line of an accepted transaction.
fn accepted_line(naming: &Naming<'_>, id: &TxId) -> Line
    ensures { result ≡ accepted_text (labels_of naming.now) id.now }
{
    tx_line(tx_label(naming, id).as_slice(), TxState::Accepted)
}

// Writes the line of each of these accepted transactions.
fn push_accepted<K: Sink>(
    naming: &Naming<'_>,
    ids: &[TxId],
    page: &mut Page,
    sink: &mut K,
) -> Result<(), Failed>
    ensures ok { OnOk result (Wrote (K.taken sink.old) (K.taken sink.new)
        (page.old ++ flat_map (accepted_text (labels_of naming.now)) ids.now) page.new) }
    ensures err { OnErr result (AppendsFront (K.taken sink.old) (K.taken sink.new)
        (page.old ++ flat_map (accepted_text (labels_of naming.now)) ids.now)) }
    ensures cause { HasCause (K.faults sink.old) (K.faults sink.new) result }
{
    'id: for id in ids {
        let line = accepted_line(naming, id);
        page.push(line.as_slice(), sink)?;
    }
    Ok(())
}

// Writes how many accepted transactions there are, and the line of each.
fn push_all_accepted<K: Sink>(
    naming: &Naming<'_>,
    ids: &[TxId],
    page: &mut Page,
    sink: &mut K,
) -> Result<(), Failed>
    requires { length ids.now ≤ 131072 }
    ensures ok { OnOk result (Wrote (K.taken sink.old) (K.taken sink.new)
        (page.old ++ all_accepted_text (labels_of naming.now) ids.now) page.new) }
    ensures err { OnErr result (AppendsFront (K.taken sink.old) (K.taken sink.new)
        (page.old ++ all_accepted_text (labels_of naming.now) ids.now)) }
    ensures cause { HasCause (K.faults sink.old) (K.faults sink.new) result }
{
    let line = accepted_count_line(ids.len() as u32);
    page.push(line.as_slice(), sink)?;
    push_accepted(naming, ids, page, sink)
}

// Writes what is left under each of these locks.
fn push_paid<K: Sink>(
    engine: &Engine,
    naming: &Naming<'_>,
    locks: &[Lock],
    page: &mut Page,
    sink: &mut K,
) -> Result<(), Failed>
    ensures ok { OnOk result (Wrote (K.taken sink.old) (K.taken sink.new)
        (page.old ++ flat_map (paid_text engine.now.profile (labels_of naming.now) engine.now.kept) locks.now) page.new) }
    ensures err { OnErr result (AppendsFront (K.taken sink.old) (K.taken sink.new)
        (page.old ++ flat_map (paid_text engine.now.profile (labels_of naming.now) engine.now.kept) locks.now)) }
    ensures cause { HasCause (K.faults sink.old) (K.faults sink.new) result }
{
    'lock: for lock in locks {
        let line = line_of(engine, &Ask::Balance(*lock), naming);
        page.push(line.as_slice(), sink)?;
    }
    Ok(())
}

// Writes how many balances there are, and each of them.
fn push_all_paid<K: Sink>(
    engine: &Engine,
    naming: &Naming<'_>,
    locks: &[Lock],
    page: &mut Page,
    sink: &mut K,
) -> Result<(), Failed>
    requires few { length locks.now ≤ 2097152 }
    ensures ok { OnOk result (Wrote (K.taken sink.old) (K.taken sink.new)
        (page.old ++ all_paid_text engine.now.profile (labels_of naming.now) engine.now.kept locks.now) page.new) }
    ensures err { OnErr result (AppendsFront (K.taken sink.old) (K.taken sink.new)
        (page.old ++ all_paid_text engine.now.profile (labels_of naming.now) engine.now.kept locks.now)) }
    ensures cause { HasCause (K.faults sink.old) (K.faults sink.new) result }
{
    let line = balance_count_line(locks.len() as u32);
    page.push(line.as_slice(), sink)?;
    push_paid(engine, naming, locks, page, sink)
}

/// Writes the counts of the blocks, these accepted transactions and what is left under these locks,
/// a line for each, through a page and without taking memory.
///
/// # Errors
///
/// `Failed` where a call of the sink fails. The sink keeps what it took before.
pub(crate) fn write_report<K: Sink>(
    engine: &Engine,
    naming: &Naming<'_>,
    ids: &[TxId],
    locks: &[Lock],
    sink: &mut K,
) -> Result<(), Failed>
    requires few_ids { length ids.now ≤ 131072 }
    requires few_locks { length locks.now ≤ 2097152 }
    ensures ok { OnOk result (Appends (K.taken sink.old) (K.taken sink.new)
        (counts_text engine.now.kept
        ++ (all_accepted_text (labels_of naming.now) ids.now ++ all_paid_text engine.now.profile (labels_of naming.now) engine.now.kept locks.now))) }
    ensures err { OnErr result (AppendsFront (K.taken sink.old) (K.taken sink.new)
        (counts_text engine.now.kept
        ++ (all_accepted_text (labels_of naming.now) ids.now ++ all_paid_text engine.now.profile (labels_of naming.now) engine.now.kept locks.now))) }
    ensures cause { HasCause (K.faults sink.old) (K.faults sink.new) result }
{
    let line = counts_line(engine);
    let mut page = Page::new();
    page.push(line.as_slice(), sink)?;
    push_all_accepted(naming, ids, &mut page, sink)?;
    push_all_paid(engine, naming, locks, &mut page, sink)?;
    page.flush(sink)
}
