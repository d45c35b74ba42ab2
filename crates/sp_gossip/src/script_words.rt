//! The lines of a script: the words of each, and what they ask for.

ghost use Rattle.std.specs.Prelude.{◌≡◌, ◌<◌, ◌≤◌, IfOk, length, OnOk};
ghost use Rattle.sp_gossip.specs.Script as meant;

use crate::event::Event;
use crate::made_blocks::MadeBlocks;
use crate::script_line::{ScriptLine, ScriptWhy};
use sp_ids::Memory;
use sp_play::{Words, has_line_bytes, is_decimal, is_skipped, is_word, number_of};
use std::alloc::Global;

/// The number that a word spells; one above 65,535 is read as that.
#[tactic(auto, unfolding(crate::specs::Script::number_of))]
fn number(word: &[u8]) -> Result<u16, ScriptWhy>
    ensures { result ≡ meant.number_of word.now }
{
    if !is_decimal(word) {
        return Err(ScriptWhy::Number);
    }
    match number_of(0, 65_535, word) {
        Some(value) => Ok(value as u16),
        None => Ok(65_535),
    }
}

/// The node of a number.
fn node(nodes: u8, number: u16) -> Result<u8, ScriptWhy>
    ensures { result ≡ meant.node_of nodes number }
{
    if number < nodes as u16 {
        Ok(number as u8)
    } else {
        Err(ScriptWhy::Node)
    }
}

/// The node of `give NODE NAME`.
#[tactic(auto, unfolding(crate::specs::Script::given_node))]
fn given_node(nodes: u8, words: &Words<'_>) -> Result<u8, ScriptWhy>
    ensures value { result ≡ meant.given_node nodes words.now }
    ensures three { OnOk result (length words.now ≡ 3) }
{
    if words.len() != 3 {
        return Err(ScriptWhy::Form);
    }
    let number = number(words.at(1))?;
    node(nodes, number)
}

/// `give NODE NAME`
#[tactic(auto, unfolding(crate::specs::Script::give_line, crate::specs::Script::block_named))]
fn give_line(nodes: u8, blocks: &MadeBlocks<'_>, words: &Words<'_>) -> Result<ScriptLine, ScriptWhy>
    requires { length blocks.now ≤ 65536 }
    ensures { result ≡ meant.give_line nodes blocks.now words.now }
{
    let node = given_node(nodes, words)?;
    match blocks.named(words.at(2)) {
        Some(number) => Ok(ScriptLine::Give {
            node,
            block: number as u16,
        }),
        None => Err(ScriptWhy::Unknown),
    }
}

/// `tell NODE NODE`
#[tactic(auto, unfolding(crate::specs::Script::tell_line))]
fn tell_line(nodes: u8, words: &Words<'_>) -> Result<ScriptLine, ScriptWhy>
    ensures { result ≡ meant.tell_line nodes words.now }
{
    if words.len() != 3 {
        return Err(ScriptWhy::Form);
    }
    let one = number(words.at(1))?;
    let two = number(words.at(2))?;
    let from = node(nodes, one)?;
    let to = node(nodes, two)?;
    Ok(ScriptLine::Act(Event::Tell { from, to }))
}

/// `deliver K`
#[tactic(auto, unfolding(crate::specs::Script::deliver_line))]
fn deliver_line(words: &Words<'_>) -> Result<ScriptLine, ScriptWhy>
    ensures { result ≡ meant.deliver_line words.now }
{
    if words.len() != 2 {
        return Err(ScriptWhy::Form);
    }
    let packet = number(words.at(1))?;
    Ok(ScriptLine::Act(Event::Deliver { packet }))
}

/// `report NODE`
#[tactic(auto, unfolding(crate::specs::Script::report_line))]
fn report_line(nodes: u8, words: &Words<'_>) -> Result<ScriptLine, ScriptWhy>
    ensures { result ≡ meant.report_line nodes words.now }
{
    if words.len() != 2 {
        return Err(ScriptWhy::Form);
    }
    let number = number(words.at(1))?;
    let node = node(nodes, number)?;
    Ok(ScriptLine::Report { node })
}

/// What a line of these words asks for.
#[tactic(auto, unfolding(crate::specs::Script::command_line))]
fn command_line(
    nodes: u8,
    blocks: &MadeBlocks<'_>,
    words: &Words<'_>,
) -> Result<ScriptLine, ScriptWhy>
    requires few { length blocks.now ≤ 65536 }
    requires some { 0 < length words.now }
    ensures { result ≡ meant.command_line nodes blocks.now words.now }
{
    let command = words.at(0);
    if is_word(b"give", command) {
        return give_line(nodes, blocks, words);
    }
    if is_word(b"tell", command) {
        return tell_line(nodes, words);
    }
    if is_word(b"deliver", command) {
        return deliver_line(words);
    }
    if is_word(b"report", command) {
        return report_line(nodes, words);
    }
    Err(ScriptWhy::Command)
}

/// What a line asks for, unless it is skipped.
#[tactic(auto, unfolding(crate::specs::Script::meaning))]
pub(crate) fn meaning(
    alloc: Global,
    nodes: u8,
    blocks: &MadeBlocks<'_>,
    line: &[u8],
) -> Result<Result<Option<ScriptLine>, ScriptWhy>, Memory>
    requires { length blocks.now ≤ 65536 }
    ensures { IfOk result (λ said. said ≡ meant.meaning nodes blocks.now line.now) }
{
    if is_skipped(line) {
        return Ok(Ok(None));
    }
    if !has_line_bytes(line) {
        return Ok(Err(ScriptWhy::Byte));
    }
    let words = Words::of(alloc, line)?;
    match command_line(nodes, blocks, &words) {
        Ok(said) => Ok(Ok(Some(said))),
        Err(why) => Ok(Err(why)),
    }
}

/// The number of nodes that a word spells, from 1 to 16.
#[tactic(auto, unfolding(crate::specs::Script::count_of))]
fn count_of(word: &[u8]) -> Result<u8, ScriptWhy>
    ensures { result ≡ meant.count_of word.now }
{
    match number_of(1, 16, word) {
        Some(count) => Ok(count as u8),
        None => Err(ScriptWhy::Number),
    }
}

/// `nodes N`
#[tactic(auto, unfolding(crate::specs::Script::nodes_line))]
pub(crate) fn nodes_line(alloc: Global, line: &[u8]) -> Result<Result<u8, ScriptWhy>, Memory>
    ensures { IfOk result (λ count. count ≡ meant.nodes_line line.now) }
{
    if !has_line_bytes(line) {
        return Ok(Err(ScriptWhy::Byte));
    }
    let words = Words::of(alloc, line)?;
    if words.len() != 2 {
        return Ok(Err(ScriptWhy::Form));
    }
    Ok(count_of(words.at(1)))
}
