//! Judging a certificate.

ghost use Rattle.std.specs.Prelude.{◌≡◌, ◌≤◌, ◌<◌, ℕ, All, List, length, IfErr, None, OnOk, Some, slice_get};
ghost use Rattle.sp_dag.specs.Numbered.{graph_of, Numbered};
ghost use Rattle.sp_cert.specs.Certificate.{AreVotes};
ghost use Rattle.sp_cert.specs.Entries.{whole_number};
ghost use Rattle.sp_cert.specs.Refusals.{first_some, IsCause, IsShown, numbers_of, refusal, refusals_by_place, sum_refusal};

use crate::cert::Cert;
use crate::fault::CheckFault;
use crate::numbers::check_numbers;
use crate::placed::{placed, two_of};
use crate::tally::{sign_of, sum_of};
use crate::votes::{check_votes, signs_of};
use crate::world::World;
use sp_dag::Dag;
use std::alloc::Global;

// Judges the sign by the first world, which is that of all blocks.
fn check_sum(worlds: &[World], sign: i8) -> Result<(), CheckFault>
    requires whole { slice_get (numbers_of worlds.now) 0 ≡ Some whole_number }
    requires votes { (n : ℕ) × (n ≤ 512) × All (AreVotes n) worlds.now }
    ensures ok { OnOk result ((numbered : Numbered) → All (AreVotes (length numbered.parents)) worlds.now →
        sum_refusal (graph_of numbered) worlds.now sign ≡ None) }
    ensures fault { IfErr result (λ e. (numbered : Numbered) →
        All (AreVotes (length numbered.parents)) worlds.now →
        IsCause (sum_refusal (graph_of numbered) worlds.now sign) e) }
{
    let whole = &worlds[0];
    if sign_of(sum_of(whole.votes.as_slice())) == sign {
        Ok(())
    } else {
        Err(CheckFault::Sum)
    }
}

// Judges the worlds and the sign of a certificate with this graph, for the blocks at two places.
fn check_worlds(
    alloc: Global,
    dag: &Dag,
    worlds: &[World],
    sign: i8,
    x: u16,
    y: u16,
) -> Result<(), CheckFault>
    requires x_in { x < length dag.now.parents }
    requires y_in { y < length dag.now.parents }
    requires votes { All (AreVotes (length dag.now.parents)) worlds.now }
    requires few { length worlds.now ≤ 512 }
    ensures ok { OnOk result
        (first_some (refusals_by_place (graph_of dag.now) worlds.now sign x y) ≡ None) }
    ensures fault { IfErr result
        (IsCause (first_some (refusals_by_place (graph_of dag.now) worlds.now sign x y))) }
{
    // Tells the proof that there are at most 512 blocks.
    let _blocks = dag.len();
    check_numbers(alloc, dag, worlds, x, y)?;
    let signs = signs_of(alloc, dag, worlds)?;
    check_votes(dag, worlds, &signs, x, y)?;
    check_sum(worlds, sign)
}

/// Whether a certificate shows its sign. Of n blocks it takes a few counts over rows for each entry,
/// at most n * n of them, beside making the graph of the blocks; it reads no block's bytes.
///
/// # Errors
///
/// The first of these that stands. `Parent`: a block's parent isn't an earlier block, or its id is an
/// earlier one's. `Pair`: the two aren't two different blocks. `World`: the worlds aren't that of all
/// blocks and then, ascending, that of each block with both in its past. `Vote`: an entry isn't what
/// the first case of its vote gives, with the sums and the entries that the certificate has. `Sum`:
/// the sign isn't that of the sum of all blocks' entries. `Memory` may come before any of them.
pub fn check(alloc: Global, cert: &Cert) -> Result<(), CheckFault>
    // Nothing refuses it, and so it shows the virtual vote of its blocks.
    ensures ok { OnOk result (refusal cert.now ≡ None) }
    ensures shown { OnOk result (IsShown cert.now) }

    // What is answered is the first refusal, unless memory ran out.
    ensures fault { IfErr result (IsCause (refusal cert.now)) }
{
    let dag = match placed(alloc, cert.profile, cert.blocks.as_slice()) {
        Ok(dag) => dag,
        Err(fault) => return Err(fault),
    };
    let Some((x, y)) = two_of(&dag, &cert.x, &cert.y) else {
        return Err(CheckFault::Pair);
    };
    check_worlds(alloc, &dag, cert.worlds.as_slice(), cert.sign, x, y)
}
