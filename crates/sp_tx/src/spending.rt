//! What is spent by whom.

ghost use Rattle.std.specs.Prelude.{◌≡◌, ◌↔◌, Any, IsTrue};
ghost use Rattle.sp_ids.specs.Digest.{sha256_number};
ghost use Rattle.sp_tx.specs.Spending.{Conflict, id_of, Spends};

use crate::parts::{Input, Output};
use crate::tx::Tx;
use sp_ids::{Lock, Outpoint, TxId};

fn spends(inputs: &[Input], outpoint: &Outpoint) -> bool
    ensures { IsTrue result ↔ Spends inputs.now outpoint.now }
{
    inputs.iter().any(|input| input.from == *outpoint)
}

fn have_common(a: &[Input], b: &[Input]) -> bool
    ensures { IsTrue result ↔ Any (λ input. Spends b.now input.from) a.now }
{
    a.iter().any(|input| spends(b, &input.from))
}

/// Whether two transactions have different ids and an outpoint in common. It takes time
/// in proportion to the product of the numbers of their inputs.
pub fn conflicts(a: &Tx, a_id: &TxId, b: &Tx, b_id: &TxId) -> bool
    requires a_is { a_id.now ≡ id_of a.now }
    requires b_is { b_id.now ≡ id_of b.now }
    ensures { IsTrue result ↔ Conflict a.now b.now }
{
    *a_id != *b_id && have_common(a.inputs.as_slice(), b.inputs.as_slice())
}

/// Whether the preimage's SHA-256 is the output's lock. It takes time in proportion to the
/// preimage's bytes.
pub fn opens(input: &Input, output: &Output) -> bool
    ensures { IsTrue result ↔ (sha256_number input.now.preimage ≡ output.now.lock) }
{
    Lock::of(input.preimage.as_slice()) == output.lock
}
