//! The lines of a scenario's fault and of what a disk holds, put together whole before they are written.

ghost use Rattle.std.specs.Prelude.{◌≡◌, ◌≤◌, ◌+◌, ◌++◌, ◌∷◌, [], length};
ghost use Rattle.std.specs.Fmt.{decimal};
ghost use Rattle.sp_report.specs.Naming.{hex_label};
ghost use Rattle.spectre.specs.Journals.{chain_text, damaged_text, not_journal_text, other_chain_text, recovered_text};
ghost use Rattle.spectre.specs.Lines.{reason};
ghost use Rattle.spectre.specs.Lines as meant;

use sp_ids::BlockId;
use sp_model::Profile;
use sp_play::{LineFault, Why};
use sp_report::Line;

/// The word of a reason.
fn reason_of(why: Why) -> &'static [u8]
    ensures word { result.now ≡ reason why }
    ensures short { length result.now ≤ 7 }
{
    match why {
        Why::Byte => b"byte",
        Why::Command => b"command",
        Why::Late => b"late",
        Why::Form => b"form",
        Why::Name => b"name",
        Why::Taken => b"taken",
        Why::Unknown => b"unknown",
        Why::Repeat => b"repeat",
        Why::Number => b"number",
        Why::Word => b"word",
        Why::Many => b"many",
        Why::Twin => b"twin",
        Why::Work => b"work",
    }
}

/// The line of a scenario's fault.
#[tactic(auto, unfolding(crate::specs::Lines::fault_line))]
pub fn fault_line(fault: LineFault) -> Line
    ensures { result ≡ meant.fault_line fault.line fault.why }
{
    let mut line = Line::new();
    line.push_bytes(b"fault line ");
    line.push_number(u64::from(fault.line));
    line.push_byte(b' ');
    line.push_bytes(reason_of(fault.why));
    line.push_byte(b'\n');
    line
}

/// The line where a disk holds no journal.
#[tactic(auto, unfolding(crate::specs::Journals::not_journal_text))]
pub fn not_journal_line() -> Line
    ensures { result ≡ not_journal_text }
{
    let mut line = Line::new();
    line.push_bytes(b"fault not-journal\n");
    line
}

/// The line where a journal is damaged at this place, counted from 0.
#[tactic(auto, unfolding(crate::specs::Journals::damaged_text))]
pub fn damaged_line(place: u64) -> Line
    ensures { result ≡ damaged_text place }
{
    let mut line = Line::new();
    line.push_bytes(b"fault damaged ");
    line.push_number(place);
    line.push_byte(b'\n');
    line
}

/// The line before the report on a journal with so many records.
#[tactic(auto, unfolding(crate::specs::Journals::recovered_text))]
pub fn recovered_line(count: u16) -> Line
    ensures { result ≡ recovered_text count }
{
    let mut line = Line::new();
    line.push_bytes(b"recovered ");
    line.push_number(u64::from(count));
    line.push_byte(b'\n');
    line
}

/// Writes a number of 8 bits in decimal digits, of which there are 3 at most.
#[tactic(auto, using(crate::proofs::SmallNumbers::size_of_8))]
fn push_small(line: &mut Line, number: u8)
    requires { length line.old ≤ 172 }
    ensures text { line.new ≡ line.old ++ decimal number }
    ensures size { length line.new ≤ length line.old + 3 }
{
    line.push_number(u64::from(number));
}

/// Writes bits of work, the id of a genesis block and a profile behind a line's front.
#[tactic(auto, unfolding(sp_report::specs::Naming::hex_label))]
fn push_chain(line: &mut Line, bits: u8, genesis: &BlockId, profile: Profile)
    requires { length line.old ≤ 100 }
    ensures text { line.new ≡ line.old ++ chain_text bits genesis.now profile }
    ensures size { length line.new ≤ length line.old + 72 }
{
    let mut digits = [0; 64];
    genesis.to_hex(&mut digits);
    push_small(line, bits);
    line.push_byte(b' ');
    line.push_bytes(&digits);
    line.push_byte(b' ');
    push_small(line, profile.number());
}

/// The line where a journal is that of another chain than a feed's head: bits of work, genesis and
/// profile of the journal, and then of the feed.
#[tactic(auto, unfolding(crate::specs::Journals::other_chain_text))]
pub fn other_chain_line(
    stored_bits: u8,
    stored: BlockId,
    stored_profile: Profile,
    fed_bits: u8,
    fed: BlockId,
    fed_profile: Profile,
) -> Line
    ensures { result ≡ other_chain_text stored_bits stored stored_profile fed_bits fed fed_profile }
{
    let mut line = Line::new();
    line.push_bytes(b"fault other-chain ");
    push_chain(&mut line, stored_bits, &stored, stored_profile);
    line.push_byte(b' ');
    push_chain(&mut line, fed_bits, &fed, fed_profile);
    line.push_byte(b'\n');
    line
}
