//! A node on a genesis block, from the head of a feed or of a scene.

ghost use Rattle.std.specs.Prelude.{◌⊎◌, ◌≡◌, ◌∷◌, [], false, map, true, IfErr, IfOk, IsErrOf, IsSome, Ok, OnOk};
ghost use Rattle.sp_engine.specs.Arrivals.{kept_by_all};
ghost use Rattle.sp_engine.specs.Blocks.{block_in};
ghost use Rattle.sp_io.specs.Causes.{Rose};
ghost use Rattle.sp_journal.specs.Recovery.{bytes_in};
ghost use Rattle.sp_journal.specs.Settled.{SameTold};
ghost use Rattle.sp_node.specs.Journalled.{IsKeptOn};
ghost use Rattle.sp_node.specs.Node.{IsPlainNode};
ghost use Rattle.sp_node.specs.Terms.{terms_of};
ghost use Rattle.sp_node.specs.Stored.{IsFound, IsOfSame, IsReady, LeavesStarted, NamesBoth, stored_blocks};
ghost use Rattle.sp_node.specs.declared.start.StartFault.TheVariants as starts;

use sp_disk::Disk;
use sp_feed::FeedHead;
use sp_ids::Memory;
use sp_node::{Node, StartFault, Stored};
use std::alloc::Global;

/// A node on the head of a feed, whose genesis block is the one that its bytes spell.
pub fn node_of(alloc: Global, head: FeedHead) -> Result<Node, Memory>
    ensures node { IfOk result (IsPlainNode (terms_of head.profile head.bits) (head.genesis ∷ [])) }
    ensures genesis { block_in true head.genesis.bytes ≡ Ok head.genesis }
{
    let FeedHead {
        profile,
        bits,
        genesis,
    } = head;
    // Tells the proof what its bytes spell.
    let _id = genesis.id;
    let head = FeedHead {
        profile,
        bits,
        genesis,
    };
    Node::plain(alloc, head)
}

/// The same with a journal, on what was found on the disk.
pub fn node_on<D: Disk>(
    alloc: Global,
    disk: &mut D,
    stored: Stored,
    head: FeedHead,
) -> Result<Node, StartFault>
    requires ready { IsReady stored (D.now disk.old) }
    ensures sent { IfOk result (λ node. node.kept
        ≡ kept_by_all head.bits head.genesis (map bytes_in (stored_blocks stored))) }
    ensures kept { IfOk result (λ node. node.kept ≡ head.genesis ∷ stored_blocks stored) }
    ensures terms { IfOk result (λ node. node.terms ≡ terms_of head.profile head.bits) }
    ensures live { IfOk result (λ node. node.stopped ≡ false) }
    ensures has { IfOk result (λ node. IsSome node.journal) }
    ensures stands { IfOk result (λ node. IsKeptOn node.terms node.kept node.journal (D.now disk.new)) }
    ensures any_moment { LeavesStarted stored head (D.now disk.old) (D.now disk.new) }
    ensures untouched { IsFound stored → disk.new ≡ disk.old }
    ensures told { SameTold (D.now disk.old) (D.now disk.new) }
    ensures same { OnOk result (IsOfSame stored head) }
    ensures other { IfErr result (λ fault. (fault ≡ starts.DiskFault) ⊎ ((fault ≡ starts.Memory)
        ⊎ ((IsOfSame stored head → ⊥) × NamesBoth stored head fault))) }
    ensures created { IsErrOf result starts.DiskFault → IsFound stored → ⊥ }
    ensures fault { IsErrOf result starts.DiskFault → Rose (D.now disk.old).faults (D.now disk.new).faults }
    ensures memory { IsErrOf result starts.Memory → disk.new ≡ disk.old }
    ensures quiet { (IsErrOf result starts.DiskFault → ⊥) → (D.now disk.new).faults ≡ (D.now disk.old).faults }
    ensures genesis { block_in true head.genesis.bytes ≡ Ok head.genesis }
{
    let FeedHead {
        profile,
        bits,
        genesis,
    } = head;
    // Tells the proof what its bytes spell.
    let _id = genesis.id;
    let head = FeedHead {
        profile,
        bits,
        genesis,
    };
    Node::start(alloc, disk, stored, head)
}
