//! The lines that nodes write which send each other blocks, and that of a script's fault, put together
//! whole before they are written.

ghost use Rattle.std.specs.Prelude.{◌≡◌, ◌≤◌, length};
ghost use Rattle.spectre.specs.Gossips.{at_text, idle_text, kind_text, reason_text, sent_text, script_fault_line};

use crate::script_fault::{ScriptFault, ScriptReason};
use sp_gossip::{Kind, Packet};
use sp_report::Line;

/// At which node, and a last byte.
#[tactic(auto, unfolding(crate::specs::Gossips::at_text))]
pub fn at_line(node: u8, last: u8) -> Line
    ensures { result ≡ at_text node last }
{
    let mut line = Line::new();
    line.push_bytes(b"at ");
    line.push_number(u64::from(node));
    line.push_byte(last);
    line
}

/// The word of a kind of packet.
fn kind_of(kind: Kind) -> &'static [u8]
    ensures word { result.now ≡ kind_text kind }
    ensures short { length result.now ≤ 6 }
{
    match kind {
        Kind::Have => b"have",
        Kind::Want => b"want",
        Kind::Blocks => b"blocks",
    }
}

/// The line of a packet that is sent.
#[tactic(auto, unfolding(crate::specs::Gossips::sent_text))]
pub fn sent_line(number: u16, packet: &Packet) -> Line
    ensures { result ≡ sent_text number packet.now }
{
    let mut line = Line::new();
    line.push_bytes(b"sent ");
    line.push_number(u64::from(number));
    line.push_byte(b' ');
    line.push_bytes(kind_of(packet.kind));
    line.push_byte(b' ');
    line.push_number(packet.ids.as_slice().len() as u64);
    line.push_byte(b'\n');
    line
}

/// The line where nothing arrives and no packet is sent.
#[tactic(auto, unfolding(crate::specs::Gossips::idle_text))]
pub fn idle_line() -> Line
    ensures { result ≡ idle_text }
{
    let mut line = Line::new();
    line.push_bytes(b"idle\n");
    line
}

/// The word of a reason.
fn reason_of(reason: ScriptReason) -> &'static [u8]
    ensures word { result.now ≡ reason_text reason }
    ensures short { length result.now ≤ 7 }
{
    match reason {
        ScriptReason::Byte => b"byte",
        ScriptReason::Command => b"command",
        ScriptReason::Form => b"form",
        ScriptReason::Number => b"number",
        ScriptReason::Node => b"node",
        ScriptReason::Packet => b"packet",
        ScriptReason::Unknown => b"unknown",
        ScriptReason::Many => b"many",
        ScriptReason::Nodes => b"nodes",
    }
}

/// The line of a script's fault.
#[tactic(auto, unfolding(crate::specs::Gossips::script_fault_line))]
pub fn script_fault(fault: ScriptFault) -> Line
    ensures { result ≡ script_fault_line fault.line fault.reason }
{
    let mut line = Line::new();
    line.push_bytes(b"fault line ");
    line.push_number(u64::from(fault.line));
    line.push_byte(b' ');
    line.push_bytes(reason_of(fault.reason));
    line.push_byte(b'\n');
    line
}
