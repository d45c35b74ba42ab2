//! Laws of arrivals, over the definitions alone. Each is the contract of a function that does
//! nothing, so that the check proves it.

ghost use Rattle.std.specs.Prelude.{◌≡◌, ◌∷◌, ◌↔◌, [], ℕ, length, Contains, List};
ghost use Rattle.sp_form.specs.Bytes.{IsBytes};
ghost use Rattle.sp_block.specs.Block.{IsBlock, IsGenesis, ReadBlock};
ghost use Rattle.sp_model.specs.declared.profile.Profile.{Profile};
ghost use Rattle.sp_model.specs.Graph.{has};
ghost use Rattle.sp_model.specs.Votes.{word};
ghost use Rattle.sp_pool.specs.Kept.{graph_in, kept_of, present, AreApart, AreKept};
ghost use Rattle.sp_pool.specs.Offers.{AreAnswers, order_of_presence};
ghost use Rattle.sp_pool.specs.declared.answers.Offer.{Offer};
ghost use Rattle.sp_engine.specs.AnyOrder.{AreSameArrivals};
ghost use Rattle.sp_engine.specs.Arrivals.{kept_by_all, KeptAreOfArrivals, NoOthersAreKept};
ghost use Rattle.sp_engine.specs.Blocks.{BlockIsSpelled, BlockIsWhole, FaultIsFirst};
ghost use Rattle.sp_engine.specs.Causes.{FullIsCaused, HeldIsCaused, KeptIsCaused, KnownIsCaused, SpellingIsCaused, WorkIsCaused};
ghost use Rattle.sp_engine.specs.Presence.{order_of};
ghost use Rattle.sp_money.specs.Locks.{each_once};
ghost use Rattle.sp_engine.specs.Transactions.{ledger_by_id, ledger_of, state_of, tx_ids};
ghost use Rattle.sp_carry.specs.Ledger.{is_accepted, state, IsPlain};
ghost use Rattle.sp_carry.specs.Money.{balance};

/// What a list of bytes is as a block, by the function that arrivals are judged with, is what it
/// spells, or else its first fault.
pub fn blocks_are_spelled()
    ensures spelled { BlockIsSpelled }
    ensures whole { BlockIsWhole }
    ensures fault { FaultIsFirst }
{}

/// Over the bytes of all arrivals the kept blocks are those of the pool's relation: genesis, and
/// each block that some arrival spells, whose id meets the work and is none of those before it,
/// until 512 blocks stand.
pub fn kept_are_of_arrivals()
    ensures kept { KeptAreOfArrivals }
    ensures only { NoOthersAreKept }
{}

/// Each answer to bytes that arrive has its cause, in the words of the rules: it is given exactly
/// where that stands.
pub fn causes()
    ensures spelling { SpellingIsCaused }
    ensures work { WorkIsCaused }
    ensures known { KnownIsCaused }
    ensures full { FullIsCaused }
    ensures held { HeldIsCaused }
    ensures kept { KeptIsCaused }
{}

/// The order of presence, which the engine takes from the kept blocks alone, is the one that the
/// pool's answers tell: genesis, and then what each arrival released, in that order.
#[tactic(auto, using(crate::proofs::Answered::order_answered))]
pub fn order_is_as_released()
    ensures { (genesis : ReadBlock) (arrivals : List ReadBlock) (answers : List Offer) →
        genesis.parents ≡ [] → AreAnswers (genesis ∷ []) arrivals answers →
        order_of (kept_of genesis arrivals) ≡ order_of_presence genesis answers }
{}

/// Each id of a list is counted once, at its first place: a list that was counted by hand.
pub fn ids_count_once()
    ensures { each_once (5 ∷ 7 ∷ 5 ∷ 6 ∷ 7 ∷ []) ≡ 5 ∷ 7 ∷ 6 ∷ [] }
{}

/// Where no two different transactions of the present blocks have one id, what is said of an id is
/// what the definition of acceptance says over the blocks' own transactions.
#[tactic(auto, using(crate::proofs::ByIds::states_agree, crate::proofs::ByIds::acceptance_agrees))]
pub fn states_of_own()
    ensures state { (profile : Profile) (kept : List ReadBlock) (id : ℕ) → AreApart kept →
        IsPlain (ledger_of profile kept) (present kept) →
        state_of profile kept id ≡ state (ledger_of profile kept) (present kept) id }
    ensures accepted { (profile : Profile) (kept : List ReadBlock) (id : ℕ) → AreApart kept →
        IsPlain (ledger_of profile kept) (present kept) →
        is_accepted (ledger_by_id profile kept) (present kept) id ≡ is_accepted (ledger_of profile kept) (present kept) id }
{}

/// From a genesis block on, what is kept of arrivals of bytes is genesis and other blocks, no two of
/// one id, 512 of them at most.
pub fn all_are_kept_blocks()
    ensures kept { (bits : ℕ) (genesis : ReadBlock) (arrivals : List (List ℕ)) →
        IsGenesis genesis → IsBlock genesis →
        ((bytes : List ℕ) → Contains arrivals bytes → IsBytes bytes) →
        AreKept (kept_by_all bits genesis arrivals) }
    ensures first { (bits : ℕ) (genesis : ReadBlock) (arrivals : List (List ℕ)) →
        (others : List ReadBlock) × (kept_by_all bits genesis arrivals ≡ genesis ∷ others) }
{}

/// Which of the same valid blocks arrived first is no matter, where there is room for them all:
/// the same are kept and present, and what is said of them, of their transactions and of balances
/// is the same. Of transactions and balances it is said where no two different transactions of the
/// present blocks have one id, which then holds in either order.
#[tactic(auto, using(crate::proofs::AnyOrder::present_keeps, crate::proofs::AnyOrder::present_count_keeps, crate::proofs::AnyOrder::count_keeps, crate::proofs::AnyOrder::word_keeps, crate::proofs::AnyOrder::ids_keep, crate::proofs::AnyOrder::accepted_keeps, crate::proofs::AnyOrder::state_keeps, crate::proofs::AnyOrder::balance_keeps))]
pub fn arrivals_in_any_order()
    ensures kept { (bits : ℕ) (genesis : ReadBlock) (arrivals others : List (List ℕ)) (block : ReadBlock) →
        AreSameArrivals bits genesis arrivals others →
        let one = kept_by_all bits genesis arrivals in let other = kept_by_all bits genesis others in
        Contains one block ↔ Contains other block }
    ensures apart { (bits : ℕ) (genesis : ReadBlock) (arrivals others : List (List ℕ)) →
        AreSameArrivals bits genesis arrivals others →
        let one = kept_by_all bits genesis arrivals in let other = kept_by_all bits genesis others in
        AreApart one × AreApart other }
    ensures present { (bits : ℕ) (genesis : ReadBlock) (arrivals others : List (List ℕ)) (id : ℕ) →
        AreSameArrivals bits genesis arrivals others →
        let one = kept_by_all bits genesis arrivals in let other = kept_by_all bits genesis others in
        has (present one) id ≡ has (present other) id }
    ensures counts { (bits : ℕ) (genesis : ReadBlock) (arrivals others : List (List ℕ)) →
        AreSameArrivals bits genesis arrivals others →
        let one = kept_by_all bits genesis arrivals in let other = kept_by_all bits genesis others in
        (length one ≡ length other) × (length (present one) ≡ length (present other)) }
    ensures word { (profile : Profile) (bits : ℕ) (genesis : ReadBlock) (arrivals others : List (List ℕ)) (x y : ℕ) →
        AreSameArrivals bits genesis arrivals others →
        let one = kept_by_all bits genesis arrivals in let other = kept_by_all bits genesis others in
        word (graph_in profile other) (present other) x y ≡ word (graph_in profile one) (present one) x y }
    ensures ids { (bits : ℕ) (genesis : ReadBlock) (arrivals others : List (List ℕ)) (id : ℕ) →
        AreSameArrivals bits genesis arrivals others →
        let one = kept_by_all bits genesis arrivals in let other = kept_by_all bits genesis others in
        has (tx_ids one) id ≡ has (tx_ids other) id }
    ensures plain { (profile : Profile) (bits : ℕ) (genesis : ReadBlock) (arrivals others : List (List ℕ)) →
        AreSameArrivals bits genesis arrivals others →
        let one = kept_by_all bits genesis arrivals in let other = kept_by_all bits genesis others in
        IsPlain (ledger_of profile one) (present one) →
        IsPlain (ledger_of profile other) (present other) }
    ensures accepted { (profile : Profile) (bits : ℕ) (genesis : ReadBlock) (arrivals others : List (List ℕ)) (id : ℕ) →
        AreSameArrivals bits genesis arrivals others →
        let one = kept_by_all bits genesis arrivals in let other = kept_by_all bits genesis others in
        IsPlain (ledger_of profile one) (present one) →
        is_accepted (ledger_of profile other) (present other) id ≡ is_accepted (ledger_of profile one) (present one) id }
    ensures state { (profile : Profile) (bits : ℕ) (genesis : ReadBlock) (arrivals others : List (List ℕ)) (id : ℕ) →
        AreSameArrivals bits genesis arrivals others →
        let one = kept_by_all bits genesis arrivals in let other = kept_by_all bits genesis others in
        IsPlain (ledger_of profile one) (present one) →
        state_of profile other id ≡ state_of profile one id }
    ensures balance { (profile : Profile) (bits : ℕ) (genesis : ReadBlock) (arrivals others : List (List ℕ)) (lock : ℕ) →
        AreSameArrivals bits genesis arrivals others →
        let one = kept_by_all bits genesis arrivals in let other = kept_by_all bits genesis others in
        IsPlain (ledger_of profile one) (present one) →
        balance (ledger_of profile other) (present other) lock ≡ balance (ledger_of profile one) (present one) lock }
{}
