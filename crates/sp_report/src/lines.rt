//! The lines over a label as bytes, apart from those of an answer, since blocks are named in other
//! ways elsewhere.

ghost use Rattle.std.specs.Prelude.{◌≡◌, ◌≤◌, ◌++◌, ◌∷◌, [], length};
ghost use Rattle.std.specs.Fmt.{decimal};
ghost use Rattle.sp_report.specs.Lines.{accepted_count_text, balance_count_text, balance_text, blocks_text, full_text, kept_text, known_text, pair_count_text, refused_text, tx_text, vote_text, waiting_text};
ghost use Rattle.sp_report.specs.Lines as meant;

use crate::line::Line;
use crate::reasons::reason;
use sp_engine::{Refusal, TxState};
use sp_model::Word;

// A line of a few words and a number.
pub(crate) fn numbered(words: &[u8], number: u32) -> Line
    requires { length words.now ≤ 64 }
    ensures { result ≡ words.now ++ decimal number ++ 10 ∷ [] }
{
    let mut line = Line::new();
    line.push_bytes(words);
    line.push_number(u64::from(number));
    line.push_byte(b'\n');
    line
}

/// The line of a block that is kept and present, and of the number of blocks that became present
/// with it.
#[tactic(auto, unfolding(crate::specs::Lines::kept_text))]
pub fn kept_line(label: &[u8], present: u32) -> Line
    requires { length label.now ≤ 64 }
    ensures { result ≡ kept_text label.now present }
{
    let mut line = Line::new();
    line.push_bytes(b"kept ");
    line.push_bytes(label);
    line.push_bytes(b" present ");
    line.push_number(u64::from(present));
    line.push_byte(b'\n');
    line
}

/// The line of a block that is kept and waits for an ancestor.
#[tactic(auto, unfolding(crate::specs::Lines::waiting_text))]
pub fn waiting_line(label: &[u8]) -> Line
    requires { length label.now ≤ 64 }
    ensures { result ≡ waiting_text label.now }
{
    let mut line = Line::new();
    line.push_bytes(b"kept ");
    line.push_bytes(label);
    line.push_bytes(b" waiting\n");
    line
}

/// The line of a block that was kept before.
#[tactic(auto, unfolding(crate::specs::Lines::known_text))]
pub fn known_line(label: &[u8]) -> Line
    requires { length label.now ≤ 64 }
    ensures { result ≡ known_text label.now }
{
    let mut line = Line::new();
    line.push_bytes(b"known ");
    line.push_bytes(label);
    line.push_byte(b'\n');
    line
}

/// The line of refused bytes.
#[tactic(auto, unfolding(crate::specs::Lines::refused_text))]
pub fn refused_line(refusal: Refusal) -> Line
    ensures { result ≡ refused_text refusal }
{
    let mut line = Line::new();
    line.push_bytes(b"refused ");
    line.push_bytes(reason(refusal));
    line.push_byte(b'\n');
    line
}

/// The line of a block for which there is no room.
#[tactic(auto, unfolding(crate::specs::Lines::full_text))]
pub fn full_line() -> Line
    ensures { result ≡ full_text }
{
    let mut line = Line::new();
    line.push_bytes(b"full\n");
    line
}

/// The word for what is said of two blocks, as it stands in a line.
pub fn word_text(word: Word) -> &'static [u8]
    ensures word { result.now ≡ meant.word_text word }
    ensures short { length result.now ≤ 6 }
{
    match word {
        Word::Before => b"before",
        Word::After => b"after",
        Word::Tie => b"tie",
        Word::Same => b"same",
        Word::Absent => b"absent",
    }
}

/// The line of what is said of two blocks, the first and the second one asked for.
#[tactic(auto, unfolding(crate::specs::Lines::vote_text))]
pub fn vote_line(x: &[u8], y: &[u8], word: Word) -> Line
    requires first { length x.now ≤ 64 }
    requires second { length y.now ≤ 64 }
    ensures { result ≡ vote_text x.now y.now word }
{
    let mut line = Line::new();
    line.push_bytes(b"vote ");
    line.push_bytes(x);
    line.push_byte(b' ');
    line.push_bytes(y);
    line.push_byte(b' ');
    line.push_bytes(word_text(word));
    line.push_byte(b'\n');
    line
}

/// The word for the state of a transaction, as it stands in a line.
pub fn state_text(state: TxState) -> &'static [u8]
    ensures word { result.now ≡ meant.state_text state }
    ensures short { length result.now ≤ 8 }
{
    match state {
        TxState::Accepted => b"accepted",
        TxState::Rejected => b"rejected",
        TxState::Absent => b"absent",
    }
}

/// The line of what is said of a transaction.
#[tactic(auto, unfolding(crate::specs::Lines::tx_text))]
pub fn tx_line(label: &[u8], state: TxState) -> Line
    requires { length label.now ≤ 64 }
    ensures { result ≡ tx_text label.now state }
{
    let mut line = Line::new();
    line.push_bytes(b"tx ");
    line.push_bytes(label);
    line.push_byte(b' ');
    line.push_bytes(state_text(state));
    line.push_byte(b'\n');
    line
}

/// The line of what is left under a lock.
#[tactic(auto, unfolding(crate::specs::Lines::balance_text))]
pub fn balance_line(label: &[u8], balance: u128) -> Line
    requires { length label.now ≤ 64 }
    ensures { result ≡ balance_text label.now balance }
{
    let mut line = Line::new();
    line.push_bytes(b"balance ");
    line.push_bytes(label);
    line.push_byte(b' ');
    line.push_wide_number(balance);
    line.push_byte(b'\n');
    line
}

/// The line of how many blocks are present, and how many wait.
#[tactic(auto, unfolding(crate::specs::Lines::blocks_text))]
pub fn blocks_line(present: u16, waiting: u16) -> Line
    ensures { result ≡ blocks_text present waiting }
{
    let mut line = Line::new();
    line.push_bytes(b"blocks ");
    line.push_number(u64::from(present));
    line.push_bytes(b" waiting ");
    line.push_number(u64::from(waiting));
    line.push_byte(b'\n');
    line
}

/// The line of how many pairs of blocks follow.
#[tactic(auto, unfolding(crate::specs::Lines::pair_count_text))]
pub fn pair_count_line(count: u32) -> Line
    ensures { result ≡ pair_count_text count }
{
    numbered(b"pairs ", count)
}

/// The line of how many accepted transactions follow.
#[tactic(auto, unfolding(crate::specs::Lines::accepted_count_text))]
pub fn accepted_count_line(count: u32) -> Line
    ensures { result ≡ accepted_count_text count }
{
    numbered(b"accepted ", count)
}

/// The line of how many balances follow.
#[tactic(auto, unfolding(crate::specs::Lines::balance_count_text))]
pub fn balance_count_line(count: u32) -> Line
    ensures { result ≡ balance_count_text count }
{
    numbered(b"balances ", count)
}
