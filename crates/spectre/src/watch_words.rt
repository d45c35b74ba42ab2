//! The words of the command line that ask for a watch.

ghost use Rattle.std.specs.Prelude.{◌≡◌, ◌≤◌, if◌then◌else◌, codes, drop, length, IfOk, IfSome, IsNone, IsTrue, None, Some};
ghost use Rattle.std.specs.Str.{bytes_eq};
ghost use Rattle.spectre.specs.IdWords.{ids_in};
ghost use Rattle.spectre.specs.WalletWords.{asks_watch, watch_in};
ghost use Rattle.spectre.specs.WalletWords as meant;
ghost use Rattle.spectre.specs.Words.{texts};

use crate::id_words::ids_of;
use sp_ids::{Lock, Memory, TxId};
use sp_watch::{Item, Items};
use std::alloc::Global;

/// The pair of two ids, if a comma stands between them.
fn pair_of_parts(first: &[u8], comma: &[u8], second: &[u8]) -> Option<Item>
    ensures { result ≡ (if bytes_eq comma.now (codes ",") then meant.pair_by (ids_in first.now second.now) else None) }
{
    if comma != b",".as_slice() {
        return None;
    }
    match ids_of(first, second) {
        Some((x, y)) => Some(Item::Vote(x, y)),
        None => None,
    }
}

/// The pair of two ids with a comma between them.
#[tactic(auto, unfolding(crate::specs::WalletWords::pair_in), using(crate::proofs::ArgumentLists::short_pair))]
fn pair_of(text: &[u8]) -> Option<Item>
    ensures { result ≡ meant.pair_in text.now }
{
    if text.len() < 65 {
        return None;
    }
    let (first, rest) = text.split_at(64);
    let (comma, _) = rest.split_at(1);
    let (_, second) = text.split_at(65);
    pair_of_parts(first, comma, second)
}

/// The item behind `lock:` or `pair:`.
#[tactic(auto, unfolding(crate::specs::WalletWords::longer_item))]
fn longer_item(word: &[u8]) -> Option<Item>
    ensures { result ≡ meant.longer_item word.now }
{
    if word.len() < 5 {
        return None;
    }
    let (kind, text) = word.split_at(5);
    if kind == b"lock:".as_slice() {
        Some(Item::Balance(Lock::from_hex(text).ok()?))
    } else if kind == b"pair:".as_slice() {
        pair_of(text)
    } else {
        None
    }
}

/// The item that a word asks for: `tx:ID`, `lock:ID` or `pair:ID,ID`.
#[tactic(auto, unfolding(crate::specs::WalletWords::item_in))]
fn item_of(word: &[u8]) -> Option<Item>
    ensures { result ≡ meant.item_in word.now }
{
    if word.len() < 3 {
        return longer_item(word);
    }
    let (kind, text) = word.split_at(3);
    if kind == b"tx:".as_slice() {
        Some(Item::Tx(TxId::from_hex(text).ok()?))
    } else {
        longer_item(word)
    }
}

/// Whether two items are one.
fn is_same_item(item: &Item, other: &Item) -> bool
    ensures { result ≡ meant.same_item item.now other.now }
{
    match (item, other) {
        (Item::Tx(x), Item::Tx(y)) => x == y,
        (Item::Balance(x), Item::Balance(y)) => x == y,
        (Item::Vote(x, y), Item::Vote(z, w)) => x == z && y == w,
        _ => false,
    }
}

/// Whether a word asks for this item.
fn is_of(item: &Item, word: &[u8]) -> bool
    ensures { result ≡ meant.is_same item.now (meant.item_in word.now) }
{
    match item_of(word) {
        Some(other) => is_same_item(item, &other),
        None => false,
    }
}

/// Whether one of the words asks for this item.
fn stands_in(words: &[String], item: &Item) -> bool
    ensures { result ≡ meant.is_among item.now (texts words.now) }
{
    let mut rest = words;
    'each: loop {
        let Some((word, behind)) = rest.split_first() else {
            return false;
        };
        if is_of(item, word.as_bytes()) {
            return true;
        }
        rest = behind;
    }
}

/// Whether a word is an item, and none of these is the same one.
pub fn is_new_item(word: &[u8], words: &[String]) -> bool
    ensures { result ≡ meant.is_new (meant.item_in word.now) (texts words.now) }
{
    match item_of(word) {
        Some(item) => !stands_in(words, &item),
        None => false,
    }
}

/// Whether each of these is an item, and none stands twice.
fn are_items(words: &[String]) -> bool
    ensures { result ≡ meant.are_items (texts words.now) }
{
    let mut rest = words;
    'each: loop {
        let Some((word, behind)) = rest.split_first() else {
            return true;
        };
        if !is_new_item(word.as_bytes(), behind) {
            return false;
        }
        rest = behind;
    }
}

/// The words behind the first one.
fn words_behind(words: &[String]) -> &[String]
    requires { 1 ≤ length words.now }
    ensures { texts result.now ≡ drop 1 (texts words.now) }
{
    words.split_at(1).1
}

/// Whether the words ask for a watch.
#[tactic(auto, unfolding(crate::specs::WalletWords::asks_watch))]
fn is_watch(words: &[String]) -> bool
    requires { 1 ≤ length words.now }
    ensures { result ≡ asks_watch (texts words.now) }
{
    words[0].as_bytes() == b"watch".as_slice()
        && 2 <= words.len()
        && words.len() <= 65
        && are_items(words_behind(words))
}

/// The words of the items, where they ask for a watch.
#[tactic(auto, unfolding(crate::specs::WalletWords::watch_in), using(crate::proofs::ArgumentLists::few_watched, crate::proofs::ArgumentLists::many_watched, crate::proofs::ArgumentLists::items_right))]
pub fn watch_of(words: &[String]) -> Option<&[String]>
    ensures some { IfSome result (λ items. watch_in (texts words.now) ≡ Some (meant.items_of (texts items.now))) }
    ensures none { IsNone result → IsNone (watch_in (texts words.now)) }
    ensures items { IfSome result (λ items. IsTrue (meant.are_items (texts items.now))) }
    ensures least { IfSome result (λ items. 1 ≤ length items.now) }
    ensures most { IfSome result (λ items. length items.now ≤ 64) }
{
    // The number, so that the proof sees how many items there are.
    if words.len() < 2 || words.len() > 65 || !is_watch(words) {
        return None;
    }
    Some(words_behind(words))
}

/// The items that some words ask for.
pub fn items_of(alloc: Global, words: &[String]) -> Result<Items, Memory>
    requires { IsTrue (meant.are_items (texts words.now)) }
    ensures value { IfOk result (λ items. items ≡ meant.items_of (texts words.now)) }
    ensures size { IfOk result (λ items. length items ≡ length words.now) }
{
    let mut items = Vec::with_capacity(alloc, words.len())?;
    let mut rest = words;
    'each: loop {
        let Some((word, behind)) = rest.split_first() else {
            return Ok(Items::of(items));
        };
        if let Some(item) = item_of(word.as_bytes()) {
            items.push(item)?;
        }
        rest = behind;
    }
}
