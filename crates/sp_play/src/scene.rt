//! A whole scenario, read line by line up to its first fault.

ghost use Rattle.std.specs.Prelude.{◌≡◌, ◌<◌, ◌≤◌, IfOk, length, option_copied};
ghost use Rattle.sp_play.specs.Making as line;
ghost use Rattle.sp_play.specs.Scene as meant;
ghost use Rattle.sp_play.specs.Source.{scenario_limit};
ghost use Rattle.sp_play.specs.Told.{Stands, Steps};

use crate::command::{Command, command_of};
use crate::known::Known;
use crate::saying::Saying;
use crate::spelling::{has_line_bytes, is_skipped};
use crate::stage::is_late;
use crate::why::{LineError, LineFault, Why};
use crate::words::{Words, first_line};
use sp_ids::Memory;
use std::alloc::Global;

/// What the lines up to the first fault say, and that fault.
#[derive(Drop)]
pub(crate) struct Reading {
    pub(crate) known: Known,
    pub(crate) fault: Option<LineFault>,
}

/// What a line with this command makes of what is known.
#[tactic(auto, unfolding(crate::specs::Making::line_by))]
fn line_by(command: Command, known: &mut Known, words: &Words) -> Result<(), LineError>
    ensures { Steps known.old known.new result (line.line_by command known.old words.now) }
{
    match command {
        Command::Profile => known.profile_line(words),
        Command::Bits => known.bits_line(words),
        Command::Grant => known.grant_line(words),
        Command::Tx => known.tx_line(words),
        Command::Make => known.block_line(false, words),
        Command::Block => known.block_line(true, words),
        Command::Send => known.send_line(words),
        Command::Vote => known.vote_line(words),
        Command::State => known.state_line(words),
        Command::Balance => known.balance_line(words),
        Command::Pairs => known.text_line(Saying::Pairs, words),
        Command::Report => known.text_line(Saying::Report, words),
    }
}

/// What a line makes of what is known.
#[tactic(auto, unfolding(crate::specs::Making::after_line))]
fn take_line(alloc: Global, known: &mut Known, text: &[u8]) -> Result<(), LineError>
    ensures { Steps known.old known.new result (line.after_line known.old text.now) }
{
    if is_skipped(text) {
        return Ok(());
    }
    if !has_line_bytes(text) {
        return Err(LineError::Fault(Why::Byte));
    }
    let words = Words::of(alloc, text)?;
    let Some(command) = command_of(words.at(0)) else {
        return Err(LineError::Fault(Why::Command));
    };
    if is_late(known.stage(), command) {
        return Err(LineError::Fault(Why::Late));
    }
    line_by(command, known, &words)
}

/// Takes a line, and answers its fault, if it has one; what is known is then as before.
fn fault_of(alloc: Global, known: &mut Known, text: &[u8]) -> Result<Option<Why>, Memory>
    ensures { IfOk result (λ fault. Stands known.old known.new fault (line.after_line known.old text.now)) }
{
    match take_line(alloc, known, text) {
        Ok(()) => Ok(None),
        Err(error) => match error {
            LineError::Fault(why) => Ok(Some(why)),
            LineError::Memory => Err(Memory),
        },
    }
}

/// Reads a text up to its first fault. The lines are numbered from 1.
pub(crate) fn read(alloc: Global, text: &[u8]) -> Result<Reading, Memory>
    requires { length text.now < scenario_limit }
    ensures known { IfOk result (λ reading. reading.known ≡ (meant.read text.now).known) }
    ensures fault { IfOk result (λ reading. reading.fault ≡ (meant.read text.now).fault) }
{
    let mut known = Known::new(alloc)?;
    let mut rest = Some(text);
    let mut number = 1u32;
    'lines: loop {
        let Some(bytes) = rest else {
            return Ok(Reading { known, fault: None });
        };
        let (line, after) = first_line(bytes);
        if let Some(why) = fault_of(alloc, &mut known, line)? {
            let fault = Some(LineFault { line: number, why });
            return Ok(Reading { known, fault });
        }
        number += 1;
        rest = after;
    }
}
