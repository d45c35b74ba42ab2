//! The counting of what a summary tells, by the engine's calls and without a text.

ghost use Rattle.std.specs.Prelude.{◌≡◌, ◌≤◌, ◌+◌, false, if◌then◌else◌, IfOk, length, map};
ghost use Rattle.sp_report.specs.Texts.{pairs_of};
ghost use Rattle.spectre.specs.Numbering.{AreNumbers, id_of, if_present, number_word};
ghost use Rattle.spectre.specs.Summary.{accepted_count, added, AreUpTo, counts_of, is_after, is_before, is_tie, paid_count, pair_words, tally_of};

use crate::counts::{Counts, Tally};
use sp_engine::Engine;
use sp_ids::BlockId;
use sp_model::Word;
use sp_report::pair_count;

// One more, or as many.
fn one_more(count: u32, counts: bool) -> u32
    requires { count ≤ 4294967294 }
    ensures { result ≡ (if counts then count + 1 else count) }
{
    if counts { count + 1 } else { count }
}

// The tally after one more word.
fn with_word(tally: Tally, word: Word) -> Tally
    requires { AreUpTo tally 4294967294 }
    ensures before { result.before ≡ (if is_before word then tally.before + 1 else tally.before) }
    ensures after { result.after ≡ (if is_after word then tally.after + 1 else tally.after) }
    ensures tie { result.tie ≡ (if is_tie word then tally.tie + 1 else tally.tie) }
{
    Tally {
        before: one_more(tally.before, word == Word::Before),
        after: one_more(tally.after, word == Word::After),
        tie: one_more(tally.tie, word == Word::Tie),
    }
}

// The number of a block in the order of presence, or how many there are where it isn't present.
fn number_of(engine: &Engine, id: &BlockId) -> u16
    ensures { id_of engine.now.kept result ≡ if_present engine.now.kept id.now }
{
    match engine.number(id) {
        Some(number) => number,
        None => engine.present(),
    }
}

// Writes into `numbers`, for each of these ids in turn, the number of its block, or how many blocks are present
// where that one isn't.
fn set_numbers(engine: &Engine, ids: &[BlockId], numbers: &mut [u16])
    requires long { length numbers.old ≡ length ids.now }
    ensures { AreNumbers engine.now.kept ids.now numbers.new }
{
    'place: for place in 0..ids.len() {
        numbers[place] = number_of(engine, &ids[place]);
    }
}

// What is said of two blocks, by their numbers.
fn word_of(engine: &Engine, x: u16, y: u16) -> Word
    ensures { result ≡ number_word engine.now.profile engine.now.kept (x, y) }
{
    let present = engine.present();
    if x < present && y < present {
        engine.vote_at(x, y)
    } else {
        Word::Absent
    }
}

// The tally after what is said of a block and each of the others, by their numbers.
fn count_votes(engine: &Engine, first: u16, others: &[u16], before: Tally) -> Tally
    requires few { length others.now ≤ 512 }
    requires bound { AreUpTo before 1048576 }
    ensures tally { result ≡
        added before (map (λ other. number_word engine.now.profile engine.now.kept (first, other)) others.now) }
{
    let mut tally = before;
    'other: for other in others {
        tally = with_word(tally, word_of(engine, first, *other));
    }
    tally
}

// What is said of each pair of these blocks, by their numbers.
fn count_numbers(engine: &Engine, numbers: &[u16]) -> Tally
    requires few { length numbers.now ≤ 512 }
    ensures { result ≡
        tally_of (map (number_word engine.now.profile engine.now.kept) (pairs_of numbers.now)) }
{
    let mut tally = Tally {
        before: 0,
        after: 0,
        tie: 0,
    };
    'place: for place in 0..numbers.len() {
        let (_, others) = numbers.split_at(place + 1);
        tally = count_votes(engine, numbers[place], others, tally);
    }
    tally
}

// What is said of each pair of these blocks. Each is looked up by its id once.
#[tactic(auto, using(crate::proofs::SaidByNumber::same_words))]
fn count_pairs(engine: &Engine, ids: &[BlockId]) -> Tally
    requires few { length ids.now ≤ 512 }
    ensures { result ≡ tally_of (pair_words engine.now.profile engine.now.kept ids.now) }
{
    let mut places = [0; 512];
    let numbers = &mut places[..ids.len()];
    set_numbers(engine, ids, numbers);
    count_numbers(engine, numbers)
}

// How many transactions of the present blocks are accepted.
fn count_accepted(engine: &Engine) -> u32
    ensures { result ≡ accepted_count engine.now.profile engine.now.kept }
{
    let mut count = 0;
    'number: for number in 0..engine.tx_count() {
        let (_, accepted) = engine.tx_at(number);
        count = one_more(count, accepted);
    }
    count
}

// Under how many locks something is left.
fn count_paid(engine: &Engine) -> u32
    ensures { result ≡ paid_count engine.now.profile engine.now.kept }
{
    let mut count = 0;
    'number: for number in 0..engine.lock_count() {
        let (_, balance) = engine.lock_at(number);
        count = one_more(count, balance != 0);
    }
    count
}

/// What there is of everything where these blocks are the present ones. It takes the time of a look-up
/// by hash for each block, of a vote by number for each pair, and of a pass over all transactions and
/// locks, and no memory.
pub fn count_all(engine: &Engine, ids: &[BlockId]) -> Counts
    requires few { length ids.now ≤ 512 }
    ensures { result ≡ counts_of engine.now.profile engine.now.kept ids.now }
{
    Counts {
        present: engine.present(),
        waiting: engine.waiting(),
        pairs: pair_count(ids),
        tally: count_pairs(engine, ids),
        accepted: count_accepted(engine),
        paid: count_paid(engine),
    }
}
