//! The value of an item, and whether two values are one.

ghost use Rattle.std.specs.Prelude.{◌≡◌};
ghost use Rattle.sp_watch.specs.Values as meant;

use crate::item::{Item, Value};
use sp_carry::TxState;
use sp_engine::Engine;
use sp_model::Word;

/// What the present blocks say of an item.
pub(crate) fn value_of(engine: &Engine, item: &Item) -> Value
    ensures { result ≡ meant.value_of engine.now.profile engine.now.kept item.now }
{
    match item {
        Item::Tx(id) => Value::State(engine.tx_state(id)),
        Item::Balance(lock) => Value::Amount(engine.balance(lock)),
        Item::Vote(x, y) => Value::Word(engine.vote(x, y)),
    }
}

// Whether two states are one.
fn is_same_state(a: TxState, b: TxState) -> bool
    ensures { result ≡ meant.same_state a b }
{
    match (a, b) {
        (TxState::Accepted, TxState::Accepted) => true,
        (TxState::Rejected, TxState::Rejected) => true,
        (TxState::Absent, TxState::Absent) => true,
        _ => false,
    }
}

// Whether two words are one.
fn is_same_word(a: Word, b: Word) -> bool
    ensures { result ≡ meant.same_word a b }
{
    match (a, b) {
        (Word::Before, Word::Before) => true,
        (Word::After, Word::After) => true,
        (Word::Tie, Word::Tie) => true,
        (Word::Same, Word::Same) => true,
        (Word::Absent, Word::Absent) => true,
        _ => false,
    }
}

/// Whether two values are one. Values of different kinds never are.
#[tactic(auto, unfolding(crate::specs::Values::same_value))]
pub(crate) fn is_same(a: Value, b: Value) -> bool
    ensures { result ≡ meant.same_value a b }
{
    match (a, b) {
        (Value::State(a), Value::State(b)) => is_same_state(a, b),
        (Value::Amount(a), Value::Amount(b)) => a == b,
        (Value::Word(a), Value::Word(b)) => is_same_word(a, b),
        _ => false,
    }
}
