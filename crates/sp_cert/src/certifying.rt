//! Making a certificate.

ghost use Rattle.std.specs.Prelude.{◌≡◌, ◌<◌, ◌≤◌, ℕ, All, List, length, Err, IfErr, IfOk, IsErr, None, slice_index_or, true, false};
ghost use Rattle.sp_pool.specs.Kept as kept;
ghost use Rattle.sp_pool.specs.Kept.{ids_of, present};
ghost use Rattle.sp_engine.specs.Presence.{order_of};
ghost use Rattle.sp_model.specs.Votes.{sgn, virt, word};
ghost use Rattle.sp_dag.specs.Numbered.{graph_of, number_of, Numbered};
ghost use Rattle.sp_cert.specs.Certificate.{AreListed, AreVotes, Entries, IsCertificate};
ghost use Rattle.sp_cert.specs.Entries.{sum_of};
ghost use Rattle.sp_cert.specs.Format.{cert_text, said, Whole};
ghost use Rattle.sp_cert.specs.Made.{certificate_of, told_worlds};
ghost use Rattle.sp_cert.specs.Refusals.{are_two, IsFound, is_placed, IsNoPair, IsShown, numbered_of, refusal};
ghost use Rattle.sp_cert.specs.declared.fault.CertifyFault.TheVariants.{NoPair};

use crate::cert::Cert;
use crate::fault::CertifyFault;
use crate::placed::two_of;
use crate::present::present_blocks;
use crate::tally::{sign_of, sum_of};
use crate::tell::told_worlds;
use crate::world::{World, Worlds};
use sp_block::{Block, Blocks};
use sp_dag::Dag;
use sp_engine::Engine;
use sp_ids::BlockId;
use std::alloc::Global;

// The sign of the sum of the first world.
fn first_sign(worlds: &[World]) -> i8
    requires some { 0 < length worlds.now }
    requires votes { (n : ℕ) × (n ≤ 512) × All (AreVotes n) worlds.now }
    ensures { (numbered : Numbered) → All (AreVotes (length numbered.parents)) worlds.now → (d : Entries) →
        result ≡ sgn (sum_of (graph_of numbered) (slice_index_or worlds.now 0 d)) }
{
    let whole = &worlds[0];
    sign_of(sum_of(whole.votes.as_slice()))
}

/// The certificate of the virtual vote of some blocks on two of them. It takes a few counts over rows
/// for each entry, of which there are at most n * n for n blocks.
///
/// # Errors
///
/// `NoPair` where the two aren't two different blocks of these. `Memory` where the votes found none.
pub(crate) fn certificate(
    alloc: Global,
    dag: &Dag,
    blocks: Vec<Block>,
    x: &BlockId,
    y: &BlockId,
) -> Result<Cert, CertifyFault>
    requires listed { AreListed blocks.items }
    requires numbered { dag.now ≡ numbered_of dag.now.profile blocks.items }
    requires placed { (k : ℕ) → k < length blocks.items → is_placed blocks.items k ≡ true }
    ensures is { IfOk result IsCertificate }
    ensures stands { IfOk result (λ cert. refusal cert ≡ None) }
    ensures shown { IfOk result IsShown }
    ensures numbers { IfOk result (λ cert. All (λ (world : Entries). world.number < 65536) cert.worlds) }
    ensures blocks { IfOk result (λ cert. cert.blocks ≡ blocks.items) }
    ensures worlds { IfOk result (λ cert. cert.worlds ≡ told_worlds (graph_of dag.now)
        (number_of dag.now.ids x.now) (number_of dag.now.ids y.now)) }
    ensures two { IfOk result (λ _. are_two (ids_of blocks.items) x.now y.now ≡ true) }
    ensures x { IfOk result (λ cert. cert.x ≡ x.now) }
    ensures y { IfOk result (λ cert. cert.y ≡ y.now) }
    ensures profile { IfOk result (λ cert. cert.profile ≡ dag.now.profile) }
    ensures pair { IfErr result (λ e. e ≡ NoPair → are_two (ids_of blocks.items) x.now y.now ≡ false) }
    ensures no_pair { are_two (ids_of blocks.items) x.now y.now ≡ false → result ≡ Err NoPair }
{
    // Tells the proof that there are at most 512 blocks.
    let _blocks = dag.len();
    let Some((first, second)) = two_of(dag, x, y) else {
        return Err(CertifyFault::NoPair);
    };
    let worlds = told_worlds(alloc, dag, first, second)?;
    let sign = first_sign(&worlds);
    Ok(Cert {
        profile: dag.profile(),
        blocks: Blocks::of(blocks),
        x: *x,
        y: *y,
        sign,
        worlds: Worlds::of(worlds),
    })
}

/// The certificate of what an engine's present blocks say of two of them; `check` takes it. It copies
/// the blocks, which it reads off their bytes anew, and then takes a few counts over rows of the engine's
/// own graph for each entry.
///
/// # Errors
///
/// `NoPair` where the two are the same block or one of them isn't present. `Memory` may come before it.
pub fn certify(
    alloc: Global,
    engine: &Engine,
    x: &BlockId,
    y: &BlockId,
) -> Result<Cert, CertifyFault>
    // It is the one that the kept blocks give.
    ensures made { IfOk result (λ cert.
        cert ≡ certificate_of engine.now.profile engine.now.kept x.now y.now) }

    // Nothing refuses it, its bytes say it again, and it is of the present blocks in their order.
    ensures stands { IfOk result (λ cert. refusal cert ≡ None) }
    ensures read { IfOk result (λ cert. said (cert_text cert) ≡ Whole cert) }
    ensures blocks { IfOk result (λ cert. ids_of cert.blocks ≡ order_of engine.now.kept) }
    ensures kept { IfOk result (λ cert. All (IsFound engine.now.kept) cert.blocks) }
    ensures x { IfOk result (λ cert. cert.x ≡ x.now) }
    ensures y { IfOk result (λ cert. cert.y ≡ y.now) }
    ensures profile { IfOk result (λ cert. cert.profile ≡ engine.now.profile) }

    // The sign is what they say.
    ensures sign { IfOk result (λ cert. cert.sign ≡
        virt (kept.graph_in engine.now.profile engine.now.kept) (present engine.now.kept) x.now y.now) }

    // There is none exactly where the two are the same or one of them is absent.
    ensures pair { IfErr result (λ e. e ≡ NoPair → IsNoPair
        (word (kept.graph_in engine.now.profile engine.now.kept) (present engine.now.kept) x.now y.now)) }
    ensures no_pair { IsNoPair
        (word (kept.graph_in engine.now.profile engine.now.kept) (present engine.now.kept) x.now y.now) → IsErr result }
{
    // Tell the proof which blocks are present, and that they are kept.
    let _present = engine.present();
    let _kept = engine.kept_count();
    // And that the ids fit their fields.
    let (_x, _y) = (x.as_bytes(), y.as_bytes());
    let dag = engine.dag();
    let blocks = present_blocks(alloc, engine)?;
    certificate(alloc, dag, blocks, x, y)
}
