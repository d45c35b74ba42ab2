//! Laws of the definitions alone. Each is the contract of a function that does nothing, so that the
//! check proves it.

ghost use Rattle.std.specs.Prelude.{◌≡◌, ℕ, ◌<◌, ◌^◌, Bool, false, List, ◌∷◌, []};
ghost use Rattle.sp_disk.specs.Asked.{did, failed, full, KeepsAll};
ghost use Rattle.sp_disk.specs.Examples as example;
ghost use Rattle.sp_disk.specs.History.{after, Event, Keeping, state_of, Sync, WasLeft, Write};
ghost use Rattle.sp_disk.specs.Images.{Among};
ghost use Rattle.sp_disk.specs.Pending.{IsImage, picked};
ghost use Rattle.sp_disk.specs.declared.pick.Pick.TheVariants.{Fill, New, Old};

/// A crash within a call leaves what one before or behind that call might leave: a write adds images,
/// and a sync that succeeds adds none. So the moments between the calls of a disk in memory stand for
/// all of them.
#[tactic(auto, using(crate::proofs::Within::shrinks))]
pub fn moments_within_calls()
    ensures write { (disk : Keeping) (at : ℕ) (bytes : List ℕ) (done : Bool) →
        Among (IsImage (after (state_of disk) (Write at bytes done))) (IsImage (state_of disk)) }
    ensures sync { (disk : Keeping) →
        Among (IsImage (state_of disk)) (IsImage (after (state_of disk) Sync)) }
{}

/// A disk in memory records each call that comes, up to the number for which it has room: a call that
/// succeeds and one that fails both keep it so. Then it is full where that many calls came.
#[tactic(auto, using(crate::proofs::Counts::all_did, crate::proofs::Counts::all_failed))]
pub fn calls_are_recorded()
    ensures did { (disk : Keeping) (event : Event) → disk.limit < 2 ^ 32 → KeepsAll disk →
        full disk ≡ false → KeepsAll (did disk event) }
    ensures failed { (disk : Keeping) (event : Event) → disk.limit < 2 ^ 32 → KeepsAll disk →
        KeepsAll (failed disk event) }
{}

/// The definitions, computed on small disks, give what was worked out by hand: the three outcomes of
/// a write amid the bytes, of one behind the end, of two writes, of one that failed and of one behind
/// a sync; and which lists are images, and which aren't.
pub fn worked_examples()
    ensures amid_old { picked Old example.amid ≡ 1 ∷ 2 ∷ 3 ∷ 4 ∷ 5 ∷ [] }
    ensures amid_new { picked New example.amid ≡ 1 ∷ 7 ∷ 8 ∷ 9 ∷ 5 ∷ [] }
    ensures amid_fill { picked (Fill 0) example.amid ≡ 1 ∷ 0 ∷ 0 ∷ 0 ∷ 5 ∷ [] }
    ensures behind_old { picked Old example.behind ≡ 1 ∷ 2 ∷ [] }
    ensures behind_new { picked New example.behind ≡ 1 ∷ 2 ∷ 7 ∷ 8 ∷ [] }
    ensures behind_fill { picked (Fill 255) example.behind ≡ 1 ∷ 2 ∷ 255 ∷ 255 ∷ [] }
    ensures twice_old { picked Old example.twice ≡ 1 ∷ 2 ∷ 3 ∷ [] }
    ensures twice_new { picked New example.twice ≡ 7 ∷ 2 ∷ 8 ∷ 9 ∷ [] }
    ensures twice_fill { picked (Fill 6) example.twice ≡ 6 ∷ 2 ∷ 6 ∷ 6 ∷ [] }
    ensures not_done_new { picked New example.not_done ≡ 1 ∷ 2 ∷ 3 ∷ [] }
    ensures not_done_fill { picked (Fill 6) example.not_done ≡ 1 ∷ 6 ∷ 6 ∷ [] }
    ensures synced_old { picked Old example.synced ≡ 1 ∷ 2 ∷ 7 ∷ [] }
    ensures synced_new { picked New example.synced ≡ 9 ∷ 2 ∷ 7 ∷ [] }
    ensures part_done { IsImage example.amid (1 ∷ 7 ∷ 200 ∷ 4 ∷ 5 ∷ []) }
    ensures end_between { IsImage example.behind (1 ∷ 2 ∷ 99 ∷ []) }
    ensures outside_kept { IsImage example.amid (1 ∷ 7 ∷ 8 ∷ 9 ∷ 6 ∷ []) → ⊥ }
    ensures no_shorter { IsImage example.amid (1 ∷ 7 ∷ 8 ∷ 9 ∷ []) → ⊥ }
    ensures no_longer { IsImage example.behind (1 ∷ 2 ∷ 7 ∷ 8 ∷ 0 ∷ []) → ⊥ }
    ensures left_before { WasLeft (1 ∷ 2 ∷ []) example.calls 0 (1 ∷ 2 ∷ []) }
    ensures not_since { WasLeft (1 ∷ 2 ∷ []) example.calls 2 (1 ∷ 2 ∷ []) → ⊥ }
{}
