//! Numbers in decimal digits.

ghost use Rattle.std.specs.Prelude.{◌≡◌, ◌≤◌, ◌<◌, ◌^◌, Ok, Err, Some, None, nat_le, if◌then◌else◌, IfOk, IfSome, IsNone};
ghost use Rattle.std.specs.List.{list_all};
ghost use Rattle.sp_play.specs.Numbers as meant;
ghost use Rattle.sp_play.specs.Told.{Answers};

use crate::why::{LineError, Why};

fn is_digit(byte: u8) -> bool
    ensures { result ≡ meant.is_digit byte }
{
    matches!(byte, b'0'..=b'9')
}

fn has_digits(word: &[u8]) -> bool
    ensures { result ≡ list_all meant.is_digit word.now }
{
    word.iter().all(|byte| is_digit(*byte))
}

/// Whether a word is digits, the first of them no 0 unless it is the only one.
pub fn is_decimal(word: &[u8]) -> bool
    ensures { result ≡ meant.is_decimal word.now }
{
    1 <= word.len() && has_digits(word) && (word.len() == 1 || word[0] != b'0')
}

/// The number that digits spell, where it is at most `high`. It stops at the first digit that makes
/// it greater.
fn value_up_to(high: u64, word: &[u8]) -> Option<u64>
    ensures { result ≡ (if nat_le (meant.value_from 0 word.now) high
        then Some (meant.value_from 0 word.now) else None) }
{
    let most = u128::from(high);
    let mut value = 0u128;
    for digit in word {
        value = value * 10 + u128::from(digit.saturating_sub(b'0'));
        if most < value {
            return None;
        }
    }
    Some(value as u64)
}

/// The number from `low` to `high` that a word spells, in decimal digits, the first of them no 0
/// unless it is the only one. Every `u64` may be asked for. It takes time in proportion to the word.
#[tactic(auto, unfolding(crate::specs::Numbers::number_in))]
pub fn number_of(low: u64, high: u64, word: &[u8]) -> Option<u64>
    ensures some { IfSome result (λ number. meant.number_in low high word.now ≡ Ok number) }
    ensures none { IsNone result → meant.number_in low high word.now ≡ Err Why.Number }
    ensures least { IfSome result (λ number. low ≤ number) }
    ensures most { IfSome result (λ number. number ≤ high) }
{
    if !is_decimal(word) {
        return None;
    }
    match value_up_to(high, word) {
        Some(value) if low <= value => Some(value),
        _ => None,
    }
}

/// The same, as the judging of a line asks for it.
pub(crate) fn number_in(low: u64, high: u64, word: &[u8]) -> Result<u64, LineError>
    ensures value { Answers result (meant.number_in low high word.now) }
    ensures bound { IfOk result (λ number. number ≤ high) }
    ensures least { IfOk result (λ number. low ≤ number) }
{
    match number_of(low, high, word) {
        Some(number) => Ok(number),
        None => Err(LineError::Fault(Why::Number)),
    }
}
