//! The words of the command line that ask for a spend.

ghost use Rattle.std.specs.Prelude.{◌≡◌, ◌≤◌, ◌<◌, ◌^◌, ◌+◌, drop, length, IfOk, IfSome, IsNone, IsTrue, Some};
ghost use Rattle.sp_ids.specs.Digest.{sha256_number};
ghost use Rattle.spectre.specs.WalletWords.{are_wallet, asks_spend, spend_in};
ghost use Rattle.spectre.specs.WalletWords as meant;
ghost use Rattle.spectre.specs.Words.{texts};

use crate::files::is_file;
use sp_ids::Memory;
use sp_play::number_of;
use sp_wallet::Preimages;
use std::alloc::Global;

/// The largest amount.
pub const LARGEST: u64 = (1 << 63) - 1;

/// Whether a word may open a lock: it has 1 to 64 bytes and doesn't begin with `-`.
#[tactic(auto, unfolding(crate::specs::WalletWords::is_word))]
pub fn is_word(word: &[u8]) -> bool
    ensures { result ≡ meant.is_word word.now }
{
    is_file(word) && word.len() <= 64
}

/// Whether a word stands among others.
fn stands_in(words: &[String], word: &[u8]) -> bool
    ensures { result ≡ meant.stands_in (texts words.now) word.now }
{
    let mut rest = words;
    'each: loop {
        let Some((other, behind)) = rest.split_first() else {
            return false;
        };
        if other.as_bytes() == word {
            return true;
        }
        rest = behind;
    }
}

/// Whether a word may open a lock, and isn't one of these.
pub fn is_new_word(word: &[u8], words: &[String]) -> bool
    ensures { result ≡ meant.is_new_word word.now (texts words.now) }
{
    is_word(word) && !stands_in(words, word)
}

/// Whether each of these may open a lock, and none stands twice.
fn are_words(words: &[String]) -> bool
    ensures { result ≡ meant.are_words (texts words.now) }
{
    let mut rest = words;
    'each: loop {
        let Some((word, behind)) = rest.split_first() else {
            return true;
        };
        if !is_new_word(word.as_bytes(), behind) {
            return false;
        }
        rest = behind;
    }
}

/// The words behind the first five.
fn words_behind(words: &[String]) -> &[String]
    requires { 5 ≤ length words.now }
    ensures { texts result.now ≡ drop 5 (texts words.now) }
{
    words.split_at(5).1
}

/// Whether these are the words of a wallet.
#[tactic(auto, unfolding(crate::specs::WalletWords::are_wallet))]
fn is_wallet(words: &[String]) -> bool
    ensures { result ≡ are_wallet (texts words.now) }
{
    1 <= words.len() && words.len() <= 16 && are_words(words)
}

/// Whether the words are those of a spend, whatever the amount is.
#[tactic(auto, unfolding(crate::specs::WalletWords::asks_spend))]
fn is_spend(words: &[String]) -> bool
    requires { 5 ≤ length words.now }
    ensures { result ≡ asks_spend (texts words.now) }
{
    words[0].as_bytes() == b"spend".as_slice()
        && words[2].as_bytes() == b"to".as_slice()
        && is_word(words[3].as_bytes())
        && words[4].as_bytes() == b"from".as_slice()
        && is_wallet(words_behind(words))
}

/// What a spend is asked for: the amount, the word after `to`, and those after `from`.
#[derive(Clone, Copy)]
pub struct SpendWords<'a> {
    pub amount: u64,
    pub to: &'a [u8],
    pub from: &'a [String],
}

/// The spend that the words ask for.
#[tactic(auto, unfolding(crate::specs::WalletWords::spend_in), using(crate::proofs::ArgumentLists::few_words, crate::proofs::ArgumentLists::wallet_right))]
pub fn spend_of(words: &[String]) -> Option<SpendWords<'_>>
    ensures some { IfSome result (λ asked. spend_in (texts words.now)
        ≡ Some (record { amount = asked.amount; to = sha256_number asked.to.now; words = texts asked.from.now })) }
    ensures none { IsNone result → IsNone (spend_in (texts words.now)) }
    ensures least { IfSome result (λ asked. 1 ≤ asked.amount) }
    ensures most { IfSome result (λ asked. asked.amount < 2 ^ 63) }
    ensures wallet { IfSome result (λ asked. IsTrue (are_wallet (texts asked.from.now))) }
{
    if words.len() < 5 || !is_spend(words) {
        return None;
    }
    let amount = number_of(1, LARGEST, words[1].as_bytes())?;
    Some(SpendWords {
        amount,
        to: words[3].as_bytes(),
        from: words_behind(words),
    })
}

/// The words of a wallet.
#[tactic(auto, using(crate::proofs::ArgumentLists::word_some, crate::proofs::ArgumentLists::word_short, crate::proofs::ArgumentLists::words_right, crate::proofs::ArgumentLists::words_few, crate::proofs::ArgumentLists::others_right))]
pub fn preimages_of(alloc: Global, words: &[String]) -> Result<Preimages, Memory>
    requires { IsTrue (are_wallet (texts words.now)) }
    ensures { IfOk result (λ preimages. preimages ≡ texts words.now) }
{
    let mut preimages = Preimages::new(alloc);
    let mut rest = words;
    'each: loop {
        let Some((word, behind)) = rest.split_first() else {
            return Ok(preimages);
        };
        preimages.push(word.as_bytes())?;
        rest = behind;
    }
}
