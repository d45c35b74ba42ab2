//! Laws of kept and present blocks, over the definitions alone. Each is the contract of a function
//! that does nothing, so that the check proves it.

ghost use Rattle.std.specs.Prelude.{◌≡◌, ◌≤◌, ◌++◌, ◌∷◌, [], ℕ, IsFalse, IsTrue, length, List, take};
ghost use Rattle.std.specs.List.{list_all};
ghost use Rattle.std.specs.List.Sorted.{IsPermutation};
ghost use Rattle.sp_block.specs.Block.{ReadBlock};
ghost use Rattle.sp_model.specs.declared.profile.Profile.{Profile};
ghost use Rattle.sp_model.specs.Graph.{complete, has, in_past, IsGraph};
ghost use Rattle.sp_pool.specs.Kept.{AreApart, AreKept, firsts, graph_in, graph_of, ids_of, kept_of, present};
ghost use Rattle.sp_pool.specs.Offers.{IsAnswer};
ghost use Rattle.sp_pool.specs.declared.answers.Offer.{Offer};

/// Over a whole list of arrivals the kept blocks are the first 512 of genesis and the arrivals, each
/// id counted once.
pub fn kept_are_the_first()
    ensures { (genesis : ReadBlock) (arrivals : List ReadBlock) →
        kept_of genesis arrivals ≡ take 512 (firsts [] (genesis ∷ arrivals)) }
{}

/// The kept blocks are a graph in each profile: no id and no rank repeats, and genesis is the one
/// block without parents.
pub fn kept_blocks_are_a_graph()
    ensures { (profile : Profile) (kept : List ReadBlock) (h : AreKept kept) →
        IsGraph (graph_in profile kept) h.genesis.id }
{}

/// The profile changes no past, and no block's presence.
#[tactic(auto, using(crate::proofs::Profiles::in_past_in, crate::proofs::Profiles::present_in))]
pub fn presence_asks_no_profile()
    ensures past { (profile : Profile) (kept : List ReadBlock) (a z : ℕ) →
        in_past (graph_in profile kept) a z ≡ in_past (graph_of kept) a z }
    ensures present { (profile : Profile) (kept : List ReadBlock) →
        complete (graph_in profile kept) ≡ present kept }
{}

/// A new block is present exactly where all its parents were present before it.
#[tactic(auto, using(crate::proofs::Growth::present_by_parents))]
pub fn present_by_parents()
    ensures { (kept : List ReadBlock) (block : ReadBlock) → IsFalse (has (ids_of kept) block.id) →
        has (present (kept ++ block ∷ [])) block.id ≡ list_all (has (present kept)) block.parents }
{}

/// A block that is one of its own ancestors is never present, and a block with an ancestor that
/// isn't kept isn't present either. No bytes are known that name their own SHA-256, so the first is
/// shown here and by no test.
#[tactic(auto, using(crate::proofs::Waiting::on_a_cycle, crate::proofs::Waiting::without_ancestor))]
pub fn waits_for_ancestors()
    ensures cycle { (kept : List ReadBlock) (id : ℕ) →
        IsTrue (in_past (graph_of kept) id id) → IsFalse (has (present kept) id) }
    ensures missing { (kept : List ReadBlock) (ancestor id : ℕ) →
        IsTrue (in_past (graph_of kept) ancestor id) → IsFalse (has (ids_of kept) ancestor) →
        IsFalse (has (present kept) id) }
{}

/// There is one answer to a block.
#[tactic(auto, using(crate::proofs::Answered::one_answer))]
pub fn one_answer()
    ensures { (kept : List ReadBlock) (block : ReadBlock) (a b : Offer) →
        IsAnswer kept block a → IsAnswer kept block b → a ≡ b }
{}

/// In whatever order blocks of different id arrive, the same of them are present, where there is
/// room for them all.
#[tactic(auto, using(crate::proofs::Orders::in_any_order))]
pub fn in_any_order()
    ensures { (genesis : ReadBlock) (arrivals others : List ReadBlock) →
        AreApart (genesis ∷ arrivals) → AreApart (genesis ∷ others) → length arrivals ≤ 511 →
        IsPermutation arrivals others →
        (id : ℕ) →
        has (present (kept_of genesis arrivals)) id ≡ has (present (kept_of genesis others)) id }
{}
