//! A scenario is read, and its first fault and the number of its messages are judged.

use crate::rows::holds;
use crate::scenes::lines::{Part, joined};
use sp_fixtures::flat;
use sp_play::{Scene, Why};
use std::alloc::Global;
use std::process::Abort;
use std::test::Fail;

/// The line of a fault and its reason.
pub type Fault = Option<(u32, Why)>;

/// Four lines with one message: two transactions `g` and `p`, a block `A`, and a question.
pub const FRONT: &[u8] =
    b"grant g 100 to alice 5 to bob\ntx p spends g.0 pays 90 to carol\nmake A on G\npairs\n";

/// What a text says.
pub fn read(alloc: Global, text: &[u8]) -> Result<Scene, Fail> {
    if text.len() >= 16_777_216 {
        return Err("too long".into());
    }
    Ok(Scene::read(alloc, text)?)
}

fn fault_of(scene: &Scene) -> Fault {
    match scene.fault() {
        Some(fault) => Some((fault.line, fault.why)),
        None => None,
    }
}

/// A text has this fault, and so many messages before it.
pub fn whole(
    rt: &impl Abort,
    alloc: Global,
    row: usize,
    text: &[u8],
    fault: Fault,
    count: usize,
) -> Result<(), Fail> {
    let scene = read(alloc, text)?;
    holds(rt, row, fault_of(&scene) == fault && scene.len() == count);
    Ok(())
}

/// Line 5 has this fault, and a line behind it isn't played; or it has none and adds so many messages.
pub fn behind(
    rt: &impl Abort,
    alloc: Global,
    row: usize,
    line: &[u8],
    why: Option<Why>,
    count: usize,
) -> Result<(), Fail> {
    let text = flat(alloc, &[FRONT, line, b"\nreport"])?;
    match why {
        Some(why) => whole(rt, alloc, row, &text, Some((5, why)), 1),
        None => whole(rt, alloc, row, &text, None, count.wrapping_add(2)),
    }
}

/// A text by its parts, its fault, and the number of messages before that.
pub type Row = (&'static [Part], Fault, usize);

/// Each text has its fault.
pub fn judge(rt: &impl Abort, alloc: Global, rows: &[Row]) -> Result<(), Fail> {
    for (number, (parts, fault, count)) in rows.iter().enumerate() {
        let text = joined(alloc, parts)?;
        whole(rt, alloc, number, &text, *fault, *count)?;
    }
    Ok(())
}
