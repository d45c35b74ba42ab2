//! A script, from its line `nodes` on.

ghost use Rattle.std.specs.Prelude.{◌≡◌, ◌+◌, ◌<◌, ◌≤◌, ◌^◌, All, IfOk, IfSome, length, slice_get, Some, true};
ghost use Rattle.sp_gossip.specs.Script as meant;
ghost use Rattle.sp_play.specs.Source.{scenario_limit};
ghost use Rattle.sp_play.specs.Words.{lines_left};
ghost use Rattle.std.specs.Option.{option_copied};

use crate::made_blocks::MadeBlocks;
use crate::script_line::{Made, ScriptLine, ScriptWhy};
use crate::script_words::{meaning, nodes_line};
use sp_ids::Memory;
use sp_play::{first_line, first_word, is_word};
use std::alloc::Global;
use std::marker::Model;

/// What a script says up to its first fault: how many nodes there are, and what each line asks for.
#[derive(Drop)]
pub struct Script {
    nodes: Option<u8>,
    lines: Vec<(u32, ScriptLine)>,
    fault: Option<(u32, ScriptWhy)>,
}

impl Model for Script {
    ghost use Rattle.sp_gossip.specs.Script.{Said};

    ghost Value = { Said };

    ghost view = { λ s. record { nodes = s.nodes; reading = record { lines = s.lines.items; fault = s.fault } } };
}

/// Whether a text's first line begins with the word `nodes`. It takes no memory.
pub fn begins_with_nodes(text: &[u8]) -> bool
    ensures { result ≡ meant.begins_with_nodes text.now }
{
    let (line, _) = first_line(text);
    match first_word(line) {
        Some(word) => is_word(b"nodes", word),
        None => false,
    }
}

/// The lines from one of this number on.
fn read_from(
    alloc: Global,
    nodes: u8,
    blocks: &MadeBlocks<'_>,
    number: u32,
    text: Option<&[u8]>,
) -> Result<Script, Memory>
    requires counted { number + meant.room (option_copied text) ≤ 2 ^ 26 }
    requires few { length blocks.now ≤ 65536 }
    ensures nodes { IfOk result (λ script. script.nodes ≡ Some nodes) }
    ensures reading { IfOk result (λ script. script.reading
        ≡ meant.read_from nodes blocks.now number (lines_left (option_copied text.entry))) }
{
    let mut lines = Vec::new(alloc);
    let mut at = number;
    let mut rest = text;
    'lines: loop {
        let Some(bytes) = rest else {
            return Ok(Script {
                nodes: Some(nodes),
                lines,
                fault: None,
            });
        };
        let (line, after) = first_line(bytes);
        let said = match meaning(alloc, nodes, blocks, line)? {
            Ok(said) => said,
            Err(why) => {
                return Ok(Script {
                    nodes: Some(nodes),
                    lines,
                    fault: Some((at, why)),
                });
            }
        };
        if let Some(said) = said {
            lines.push((at, said))?;
        }
        at += 1;
        rest = after;
    }
}

/// Reads a text up to its first fault.
fn read_text(
    alloc: Global,
    text: &[u8],
    first: u32,
    blocks: &MadeBlocks<'_>,
) -> Result<Script, Memory>
    requires short { length text.now < scenario_limit }
    requires numbered { first ≤ 16777216 }
    requires few { length blocks.now ≤ 65536 }
    requires begins { meant.begins_with_nodes text.now ≡ true }
    ensures { IfOk result (λ script. script ≡ meant.script first blocks.now text.now) }
{
    let (line, rest) = first_line(text);
    match nodes_line(alloc, line)? {
        Ok(nodes) => read_from(alloc, nodes, blocks, first + 1, rest),
        Err(why) => Ok(Script {
            nodes: None,
            lines: Vec::new(alloc),
            fault: Some((first, why)),
        }),
    }
}

impl Script {
    /// Reads a text up to its first fault. Its first line begins with the word `nodes` and has the
    /// number `first`; `blocks` are the made blocks, which `give` names. The time of a line is in
    /// proportion to its bytes and, where it names a block, to the logarithm of their number. It takes
    /// memory in proportion to the text and to the number of the blocks, however long they are.
    ///
    /// # Errors
    ///
    /// `Memory` where the list of lines, a line's words or the numbers of the blocks found none.
    pub fn read(alloc: Global, text: &[u8], first: u32, blocks: &[Made]) -> Result<Script, Memory>
        requires short { length text.now < scenario_limit }
        requires numbered { first ≤ 16777216 }
        requires few { length blocks.now ≤ 65536 }
        requires begins { meant.begins_with_nodes text.now ≡ true }
        ensures meant { IfOk result (λ script. script ≡ meant.script first blocks.now text.now) }
        ensures count { IfOk result (λ script. IfSome script.nodes meant.IsCount) }
        ensures within { IfOk result (λ script. IfSome script.nodes (λ nodes.
            All (meant.HasNumbers nodes (length blocks.now)) script.reading.lines)) }
    {
        let named = MadeBlocks::of(alloc, blocks)?;
        let script = read_text(alloc, text, first, &named)?;
        Ok(script)
    }

    /// How many nodes there are, from 1 to 16, or `None` where the line `nodes` has a fault.
    pub fn nodes(&self) -> Option<u8>
        ensures { result ≡ self.now.nodes }
    {
        self.nodes
    }

    /// How many lines aren't skipped and stand before the first fault, that of `nodes` not counted.
    pub fn len(&self) -> usize
        ensures { result ≡ length self.now.reading.lines }
    {
        self.lines.len()
    }

    /// The number of such a line, and what it asks for.
    pub fn line(&self, i: usize) -> (u32, &ScriptLine)
        requires { i < length self.now.reading.lines }
        ensures { slice_get self.now.reading.lines i ≡ Some (result.0, result.1.now) }
    {
        let line = &self.lines[i];
        (line.0, &line.1)
    }

    /// The number of the first faulty line, and why it is one.
    pub fn fault(&self) -> Option<(u32, ScriptWhy)>
        ensures { result ≡ self.now.reading.fault }
    {
        self.fault
    }
}
