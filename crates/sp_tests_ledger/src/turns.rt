//! Which transactions turn as blocks come, where acceptance decides anew and where it decides by what
//! changed: steps that were worked out by hand.

use crate::ledger::Ledger;
use crate::payments::{chosen, tx_ids};
use crate::rows::right;
use crate::turn_rows::{Laid, SCENES, Step};
use sp_carry::Flip;
use sp_fixtures::graph;
use sp_ids::TxId;
use std::alloc::Global;
use std::process::Abort;
use std::test::Fail;

/// Pairs beside those that an update has to be told, in no order: some have the higher number first,
/// some are of related blocks, of new ones or of none, and some stand twice.
#[rattlefmt::skip]
const OTHERS: &[(u16, u16)] = &[
    (5, 6), (2, 1), (1, 2), (600, 700), (65_535, 0), (0, 1), (1, 1), (3, 4), (0, 65_535),
    (1, 2), (2, 3), (1, 3), (1, 512), (4, 2), (2, 4), (0, 0), (3, 3), (1, 4),
];

/// Adds a block with the transactions of these numbers.
fn lay(alloc: Global, ids: &[TxId], ledger: &mut Ledger, laid: &Laid) -> Result<(), Fail> {
    let (parents, numbers) = *laid;
    let [new, _] = ledger.blocks().to_le_bytes();
    let mut named = Vec::new(alloc);
    for parent in parents {
        named.push(graph::id(*parent))?;
    }
    let txs = chosen(alloc, ids, numbers)?;
    ledger.add(graph::id(new), &named, &txs)
}

/// How a ledger decides.
#[derive(Clone, Copy)]
enum Way {
    Anew,
    /// By what changed.
    Told,
    /// So, where other pairs are told too.
    ToldMore,
}

/// How it decides on the first step, and then on the others.
const WAYS: &[(Way, Way)] = &[
    (Way::Anew, Way::Anew),
    (Way::Told, Way::Told),
    (Way::ToldMore, Way::ToldMore),
    (Way::Anew, Way::Told),
];

fn decide(ledger: &mut Ledger, way: Way) -> Result<Vec<Flip>, Fail> {
    match way {
        Way::Anew => ledger.rebuild(),
        Way::Told => ledger.update(&[]),
        Way::ToldMore => ledger.update(OTHERS),
    }
}

fn are_turned(flips: &[Flip], turned: &[(u32, bool)]) -> bool {
    flips.len() == turned.len()
        && flips
            .iter()
            .zip(turned)
            .all(|(flip, one)| flip.tx == one.0 && flip.now == one.1)
}

/// What is wrong where it decides once more.
fn decided(
    ledger: &mut Ledger,
    way: Way,
    step: &Step,
    turned: &[(u32, bool)],
) -> Result<&'static str, Fail> {
    let flips = decide(ledger, way)?;
    if !are_turned(&flips, turned) {
        Ok("turned")
    } else if !ledger.are_carriers(step.carriers) {
        Ok("carriers")
    } else if !ledger.are_txs(step.txs) {
        Ok("transactions")
    } else {
        Ok("")
    }
}

/// What is wrong after a step, where nothing turns when it decides a second time.
fn stepped(
    alloc: Global,
    ids: &[TxId],
    ledger: &mut Ledger,
    way: Way,
    step: &Step,
) -> Result<&'static str, Fail> {
    for laid in step.blocks {
        lay(alloc, ids, ledger, laid)?;
    }
    let first = decided(ledger, way, step, step.turned)?;
    if !first.is_empty() {
        return Ok(first);
    }
    decided(ledger, way, step, &[])
}

/// What is wrong in the steps, the first of them that is.
fn walked(
    alloc: Global,
    ids: &[TxId],
    ledger: &mut Ledger,
    ways: (Way, Way),
    steps: &[Step],
) -> Result<&'static str, Fail> {
    ledger.carry(&chosen(alloc, ids, &[0])?)?;
    for (place, step) in steps.iter().enumerate() {
        let way = if place == 0 { ways.0 } else { ways.1 };
        let wrong = stepped(alloc, ids, ledger, way, step)?;
        if !wrong.is_empty() {
            return Ok(wrong);
        }
    }
    Ok("")
}

fn wrong_in(
    alloc: Global,
    ids: &[TxId],
    ways: (Way, Way),
    steps: &[Step],
) -> Result<&'static str, Fail> {
    let mut ledger = Ledger::of(alloc, graph::id(0))?;
    let wrong = walked(alloc, ids, &mut ledger, ways, steps);
    drop(ledger);
    wrong
}

fn judge(rt: &impl Abort, alloc: Global, ids: &[TxId]) -> Result<(), Fail> {
    for (place, steps) in SCENES.iter().enumerate() {
        for ways in WAYS {
            right(rt, place, wrong_in(alloc, ids, *ways, steps)?);
        }
    }
    Ok(())
}

#[test]
fn turned_transactions(rt: HostRuntime) -> Result<(), Fail> {
    let ids = tx_ids(rt.alloc())?;
    judge(&rt, rt.alloc(), &ids)
}
