//! The pairs of blocks on which a set votes otherwise than a smaller one, as acceptance asks them.

ghost use Rattle.std.specs.Prelude.{◌≡◌, ◌≢◌, ◌<◌, ℕ, ℤ, length, All, Contains, IfOk, slice_get, Some};
ghost use Rattle.sp_model.specs.Votes.{sgn};
ghost use Rattle.sp_dag.specs.Numbered.{pairs_of};

use sp_dag::Dag;
use sp_ids::Memory;
use sp_view::Sums;
use std::alloc::Global;

/// The pairs of these numbers.
fn pairs_at(alloc: Global, dag: &Dag, numbers: &[u32]) -> Result<Vec<(u16, u16)>, Memory>
    requires { All (λ i. i < length (pairs_of dag.now)) numbers.now }
    ensures { IfOk result (λ pairs. (i : ℕ) (pair : ℕ × ℕ) → Contains numbers.now i →
        slice_get (pairs_of dag.now) i ≡ Some pair → Contains pairs.items pair) }
{
    let mut pairs = Vec::with_capacity(alloc, numbers.len())?;
    'numbers: for i in numbers {
        pairs.push(dag.pair(*i))?;
    }
    Ok(pairs)
}

/// The pairs on which the sums have another sign than older ones.
///
/// # Errors
///
/// Memory was refused.
pub(crate) fn turned_pairs(
    alloc: Global,
    dag: &Dag,
    older: &Sums,
    sums: &Sums,
) -> Result<Vec<(u16, u16)>, Memory>
    ensures { IfOk result (λ pairs. (i : ℕ) (a b : ℤ) (pair : ℕ × ℕ) →
        slice_get older.now i ≡ Some a → slice_get sums.now i ≡ Some b → sgn a ≢ sgn b →
        slice_get (pairs_of dag.now) i ≡ Some pair → Contains pairs.items pair) }
{
    let numbers = sums.turned(dag, older)?;
    let pairs = pairs_at(alloc, dag, numbers.as_slice())?;
    Ok(pairs)
}
