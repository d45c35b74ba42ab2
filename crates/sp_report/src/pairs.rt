//! The lines of all pairs of blocks.

ghost use Rattle.std.specs.Prelude.{◌≡◌, ◌≤◌, ◌++◌, false, length, OnErr, OnOk};
ghost use Rattle.std.specs.List.{flat_map};
ghost use Rattle.std.specs.Io.KnownBytes.{Appends};
ghost use Rattle.sp_io.specs.Causes.{HasCause};
ghost use Rattle.sp_io.specs.Whole.{AppendsFront, Wrote};
ghost use Rattle.sp_report.specs.Naming.{labels_of};
ghost use Rattle.sp_report.specs.Texts.{pair_text, pairs_of, pairs_of_ids_text, votes_text};

use crate::ask::Ask;
use crate::asks::line_of;
use crate::lines::pair_count_line;
use crate::naming::Naming;
use sp_engine::Engine;
use sp_ids::BlockId;
use sp_io::{Failed, Page, Sink};

// Writes what is said of a block and each of the others.
fn push_votes<K: Sink>(
    engine: &Engine,
    naming: &Naming<'_>,
    first: &BlockId,
    others: &[BlockId],
    page: &mut Page,
    sink: &mut K,
) -> Result<(), Failed>
    ensures ok { OnOk result (Wrote (K.taken sink.old) (K.taken sink.new)
        (page.old ++ votes_text engine.now.profile (labels_of naming.now) engine.now.kept first.now others.now) page.new) }
    ensures err { OnErr result (AppendsFront (K.taken sink.old) (K.taken sink.new)
        (page.old ++ votes_text engine.now.profile (labels_of naming.now) engine.now.kept first.now others.now)) }
    ensures cause { HasCause (K.faults sink.old) (K.faults sink.new) result }
{
    'other: for other in others {
        let line = line_of(engine, &Ask::Vote(*first, *other), naming);
        page.push(line.as_slice(), sink)?;
    }
    Ok(())
}

// Writes what is said of each pair of these, by the first of the two, then by the second.
fn push_pairs<K: Sink>(
    engine: &Engine,
    naming: &Naming<'_>,
    ids: &[BlockId],
    page: &mut Page,
    sink: &mut K,
) -> Result<(), Failed>
    ensures ok { OnOk result (Wrote (K.taken sink.old) (K.taken sink.new)
        (page.old ++ flat_map (pair_text engine.now.profile (labels_of naming.now) engine.now.kept) (pairs_of ids.now)) page.new) }
    ensures err { OnErr result (AppendsFront (K.taken sink.old) (K.taken sink.new)
        (page.old ++ flat_map (pair_text engine.now.profile (labels_of naming.now) engine.now.kept) (pairs_of ids.now))) }
    ensures cause { HasCause (K.faults sink.old) (K.faults sink.new) result }
{
    'place: for place in 0..ids.len() {
        let (_, others) = ids.split_at(place + 1);
        push_votes(engine, naming, &ids[place], others, page, sink)?;
    }
    Ok(())
}

/// How many pairs these have.
#[tactic(auto, using(crate::proofs::PairTexts::pair_count))]
pub fn pair_count(ids: &[BlockId]) -> u32
    requires { length ids.now ≤ 65535 }
    ensures { result ≡ length (pairs_of ids.now) }
{
    let blocks = u32::from(ids.len() as u16);
    (blocks * blocks - blocks) / 2
}

/// Writes how many pairs there are of these, and what is said of each: a line for each of at most
/// 130,816 pairs of 512 blocks, through a page and without taking memory.
///
/// # Errors
///
/// `Failed` where a call of the sink fails. The sink keeps what it took before.
pub(crate) fn write_pairs<K: Sink>(
    engine: &Engine,
    naming: &Naming<'_>,
    ids: &[BlockId],
    sink: &mut K,
) -> Result<(), Failed>
    requires few { length ids.now ≤ 65535 }
    ensures ok { OnOk result (Appends (K.taken sink.old) (K.taken sink.new)
        (pairs_of_ids_text engine.now.profile (labels_of naming.now) engine.now.kept ids.now)) }
    ensures err { OnErr result (AppendsFront (K.taken sink.old) (K.taken sink.new)
        (pairs_of_ids_text engine.now.profile (labels_of naming.now) engine.now.kept ids.now)) }
    ensures cause { HasCause (K.faults sink.old) (K.faults sink.new) result }
{
    let line = pair_count_line(pair_count(ids));
    let mut page = Page::new();
    page.push(line.as_slice(), sink)?;
    push_pairs(engine, naming, ids, &mut page, sink)?;
    page.flush(sink)
}
