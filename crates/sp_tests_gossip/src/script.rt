//! What scripts say, and the first fault of each.

use sp_gossip::{Event, Made, Script, ScriptLine, ScriptWhy, begins_with_nodes, find_script};
use sp_names::Name;
use sp_tx::Bytes;
use std::alloc::Global;
use std::test::Fail;

/// The names of the made blocks; the bytes of each are its name's.
const NAMES: [&str; 2] = ["A", "B"];

/// What a line asks for.
#[derive(Clone, Copy, Debug)]
enum Wish {
    Give(u8, u16),
    Tell(u8, u8),
    Deliver(u16),
    Report(u8),
}

/// A text from its line `nodes` on, which has number 3; what it says, and its fault.
#[derive(Drop)]
struct Row {
    text: &'static str,
    nodes: Option<u8>,
    lines: &'static [(u32, Wish)],
    fault: Option<(u32, ScriptWhy)>,
}

fn made_blocks(alloc: Global) -> Result<Vec<Made>, Fail> {
    let mut blocks = Vec::new(alloc);
    for name in NAMES {
        if name.is_empty() || name.len() > 64 {
            return Err("no name".into());
        }
        blocks.push(Made {
            name: Name::of(name.as_bytes()),
            bytes: Bytes::of(Vec::from_slice(alloc, name.as_bytes())?),
        })?;
    }
    Ok(blocks)
}

fn asks(said: &ScriptLine, wish: Wish) -> bool {
    match (said, wish) {
        (ScriptLine::Give { node, block }, Wish::Give(at, number)) => {
            *node == at && *block == number
        }
        (ScriptLine::Act(Event::Tell { from, to }), Wish::Tell(one, other)) => {
            *from == one && *to == other
        }
        (ScriptLine::Act(Event::Deliver { packet }), Wish::Deliver(number)) => *packet == number,
        (ScriptLine::Report { node }, Wish::Report(at)) => *node == at,
        _ => false,
    }
}

fn says(script: &Script, row: &Row) -> bool {
    if script.nodes() != row.nodes
        || script.fault() != row.fault
        || script.len() != row.lines.len()
    {
        return false;
    }
    for i in 0..script.len() {
        let (number, said) = script.line(i);
        let Some(wanted) = row.lines.get(i) else {
            return false;
        };
        if number != wanted.0 || !asks(said, wanted.1) {
            return false;
        }
    }
    true
}

/// A first line, or one behind it, with the fault of a reason: alone, and with a later one of the table.
#[rattlefmt::skip]
const ROWS: &[Row] = &[
    Row { text: "nodes 2\ngive 0 A\n# a comment\n\ntell 0 1\r\n deliver\t0 \nreport 1", nodes: Some(2), lines: &[(4, Wish::Give(0, 0)), (7, Wish::Tell(0, 1)), (8, Wish::Deliver(0)), (9, Wish::Report(1))], fault: None },
    Row { text: "nodes 16\n", nodes: Some(16), lines: &[], fault: None },
    Row { text: "nodes 1\ngive 0 B\ngive 0 A\ngive 0 B", nodes: Some(1), lines: &[(4, Wish::Give(0, 1)), (5, Wish::Give(0, 0)), (6, Wish::Give(0, 1))], fault: None },
    Row { text: "nodes 2\ndeliver 99999999999999999999999999\ndeliver 65536\ndeliver 65535\ndeliver 65534\ntell 0 0", nodes: Some(2), lines: &[(4, Wish::Deliver(65535)), (5, Wish::Deliver(65535)), (6, Wish::Deliver(65535)), (7, Wish::Deliver(65534)), (8, Wish::Tell(0, 0))], fault: None },
    Row { text: "nodes 16\ntell 15 0\ntell 16 0", nodes: Some(16), lines: &[(4, Wish::Tell(15, 0))], fault: Some((5, ScriptWhy::Node)) },
    Row { text: "nodes 2\nreport 1\nreport 01", nodes: Some(2), lines: &[(4, Wish::Report(1))], fault: Some((5, ScriptWhy::Number)) },
];

/// The line `nodes` and its reasons.
#[rattlefmt::skip]
const FIRST: &[(&str, ScriptWhy)] = &[
    ("nodes 0", ScriptWhy::Number), ("nodes 17\ngive", ScriptWhy::Number), ("nodes 02", ScriptWhy::Number), ("nodes +2", ScriptWhy::Number),
    ("nodes 18446744073709551618", ScriptWhy::Number), ("nodes", ScriptWhy::Form), ("nodes 2 2", ScriptWhy::Form), ("nodes 0 2", ScriptWhy::Form),
    ("nodes 2 \u{7f}", ScriptWhy::Byte), ("nodes 0\u{7f}", ScriptWhy::Byte),
];

/// A line behind it and its reason.
#[rattlefmt::skip]
const LATER: &[(&str, ScriptWhy)] = &[
    // Alone.
    ("report \u{7f}", ScriptWhy::Byte), ("nope", ScriptWhy::Command), ("nodes 2", ScriptWhy::Command), ("block A on G", ScriptWhy::Command), ("Give 0 A", ScriptWhy::Command),
    ("give 0", ScriptWhy::Form), ("give 0 A B", ScriptWhy::Form), ("tell 0", ScriptWhy::Form), ("tell 0 1 1", ScriptWhy::Form), ("deliver", ScriptWhy::Form), ("deliver 0 0", ScriptWhy::Form),
    ("report", ScriptWhy::Form), ("report 0 1", ScriptWhy::Form), ("give x A", ScriptWhy::Number), ("tell 00 1", ScriptWhy::Number), ("tell 1 -1", ScriptWhy::Number), ("deliver 0x", ScriptWhy::Number),
    ("deliver 01", ScriptWhy::Number), ("report one", ScriptWhy::Number), ("give 2 A", ScriptWhy::Node), ("tell 2 0", ScriptWhy::Node), ("tell 0 2", ScriptWhy::Node), ("report 2", ScriptWhy::Node),
    ("report 256", ScriptWhy::Node), ("report 65536", ScriptWhy::Node), ("report 99999999999999999999999999", ScriptWhy::Node), ("give 1 Nope", ScriptWhy::Unknown), ("give 1 G", ScriptWhy::Unknown), ("give 1 a", ScriptWhy::Unknown),
    // With one that comes later in the table.
    ("nope \u{7f}", ScriptWhy::Byte), ("report \u{7f} 1", ScriptWhy::Byte), ("give x\u{7f} A", ScriptWhy::Byte), ("tell 9 \u{7f}", ScriptWhy::Byte), ("give 0 N\u{7f}", ScriptWhy::Byte),
    ("nodes", ScriptWhy::Command), ("nodes 99", ScriptWhy::Command), ("nope x", ScriptWhy::Command), ("nope 9", ScriptWhy::Command),
    ("tell x", ScriptWhy::Form), ("deliver x 1", ScriptWhy::Form), ("tell 9", ScriptWhy::Form), ("report 9 9", ScriptWhy::Form), ("give 0 Nope A", ScriptWhy::Form), ("deliver 9 9", ScriptWhy::Form),
    ("tell x 99", ScriptWhy::Number), ("tell 99 x", ScriptWhy::Number), ("give x Nope", ScriptWhy::Number), ("give 99 Nope", ScriptWhy::Node),
];

/// Whether a text says what its row has.
fn is_read(alloc: Global, blocks: &[Made], row: &Row) -> Result<(), Fail> {
    let text = row.text.as_bytes();
    if text.len() > 1000 || blocks.len() > 2 || !begins_with_nodes(text) {
        return Err("another first word".into());
    }
    let script = Script::read(alloc, text, 3, blocks)?;
    if !says(&script, row) {
        return Err(row.text.into());
    }
    Ok(())
}

#[test]
fn scripts_say(rt: HostRuntime) -> Result<(), Fail> {
    let alloc = rt.alloc();
    let blocks = made_blocks(alloc)?;
    for row in ROWS {
        is_read(alloc, &blocks, row)?;
    }
    for (text, why) in FIRST {
        let row = Row {
            text,
            nodes: None,
            lines: &[],
            fault: Some((3, *why)),
        };
        is_read(alloc, &blocks, &row)?;
    }
    Ok(())
}

/// Whether the second line of a script has this fault.
fn is_at_fault(alloc: Global, blocks: &[Made], line: &str, why: ScriptWhy) -> Result<(), Fail> {
    let mut text = Vec::from_slice(alloc, b"nodes 2\n")?;
    text.extend_from_slice(line.as_bytes())?;
    if text.len() > 1000 || blocks.len() > 2 || !begins_with_nodes(&text) {
        return Err("another first word".into());
    }
    let script = Script::read(alloc, &text, 3, blocks)?;
    if script.nodes() != Some(2) || script.len() != 0 || script.fault() != Some((4, why)) {
        return Err("another reason".into());
    }
    Ok(())
}

#[test]
fn lines_are_at_fault(rt: HostRuntime) -> Result<(), Fail> {
    let alloc = rt.alloc();
    let blocks = made_blocks(alloc)?;
    for (line, why) in LATER {
        is_at_fault(alloc, &blocks, line, *why)?;
    }
    Ok(())
}

/// A text, how many bytes stand before its script, how many lines they are, and whether there is one.
const CUTS: &[(&str, usize, u32, bool)] = &[
    ("", 0, 0, false),
    ("nodes 2", 0, 0, true),
    ("a\n", 2, 1, false),
    ("a\nb", 3, 2, false),
    ("a\n\n", 3, 2, false),
    ("a\nnodes", 2, 1, true),
    ("# nodes\n \tnodes 2\nnodes 3\n", 8, 1, true),
    ("a nodes\r\nnodess\nnodes\r\n", 16, 2, true),
    ("a\rnodes 2\n", 10, 1, false),
];

#[test]
fn texts_are_cut(_rt: HostRuntime) -> Result<(), Fail> {
    for (text, place, lines, found) in CUTS {
        if text.len() > 1000 {
            return Err("too long".into());
        }
        let cut = find_script(text.as_bytes());
        if cut.place != *place || cut.lines != *lines || cut.found != *found {
            return Err((*text).into());
        }
    }
    Ok(())
}
