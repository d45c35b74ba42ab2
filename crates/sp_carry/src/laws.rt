//! Laws of the ledger, over the definitions alone. Each is the contract of a function that does
//! nothing, so that the check proves it.

ghost use Rattle.std.specs.Prelude.{◌≡◌, ◌<◌, ◌≤◌, ◌++◌, ◌∷◌, [], ℕ, List, length, IsTrue, IsFalse, Contains, flat_map, sum_by};
ghost use Rattle.sp_model.specs.Graph.{complete, has, AreDistinct, IsDownset, IsGraph};
ghost use Rattle.sp_carry.specs.declared.state.TxState.TheVariants.{Accepted, Rejected, Absent};
ghost use Rattle.sp_carry.specs.Payment.{Payment, Spent, conflicts, paid_amount, payment_of};
ghost use Rattle.sp_carry.specs.Ledger.{Ledger, accepts, accepts_by, accepted_carriers, is_accepted, HasNoTwins, IsPlain, NamesOnce};
ghost use Rattle.sp_carry.specs.Money.{balance};
ghost use Rattle.sp_tx.specs.Parts.{Transaction};
ghost use Rattle.sp_dag.specs.Numbered.{AreInOrder, Numbered, with_next};
ghost use Rattle.sp_carry.specs.Carried.{cut_to, first_like, nothing, with_block, ArePlain, AreSound, Carried, Carries, IsCarried};
ghost use Rattle.sp_carry.specs.Examples as example;
ghost use Rattle.sp_carry.specs.Examples.{state_in, balance_in};

/// A carrier in a complete block is accepted where the four conditions hold, with no bound on how
/// deep the recursion goes.
#[tactic(auto, using(crate::proofs::Acceptance::accepts_is))]
pub fn acceptance_by_conditions()
    ensures { (ledger : Ledger) (set : List ℕ) (z : ℕ) (t : Payment) →
        IsTrue (has (complete ledger.graph) z) →
        accepts ledger set z t ≡ accepts_by ledger set (λ w u. accepts ledger set w u) z t }
{}

/// Where no two transactions of one block conflict, no two accepted ones of one set do; and the
/// transaction of each input of an accepted one is accepted.
#[tactic(auto, using(crate::proofs::Conflicts::two_accepted, crate::proofs::Conflicts::sources_accepted))]
pub fn accepted_agree()
    ensures no_conflict { (ledger : Ledger) (set : List ℕ) (t u : Payment) →
        IsDownset ledger.graph set → HasNoTwins ledger set →
        Contains (accepted_carriers ledger set) t → Contains (accepted_carriers ledger set) u →
        IsFalse (conflicts t u) }
    ensures sources { (ledger : Ledger) (set : List ℕ) (t : Payment) (i : Spent) →
        IsDownset ledger.graph set →
        Contains (accepted_carriers ledger set) t → Contains t.inputs i →
        IsTrue (is_accepted ledger set i.from.tx) }
{}

/// Where no two transactions have one id, no two of one block conflict and none has an outpoint
/// twice, the balances of any different locks are together at most what genesis grants.
#[tactic(auto, using(crate::proofs::Genesis::balances_in_graph))]
pub fn nothing_is_made()
    ensures { (ledger : Ledger) (set : List ℕ) (genesis : ℕ) (locks : List ℕ) →
        IsGraph ledger.graph genesis → IsDownset ledger.graph set → IsPlain ledger set →
        HasNoTwins ledger set → NamesOnce ledger set → AreDistinct locks →
        sum_by (balance ledger set) locks ≤ sum_by paid_amount (ledger.txs genesis) }
{}

/// The carriers that blocks bring one after another are marked sound just where the definition says
/// so, over all blocks that were added; and a block that is added to the graph changes no mark.
#[tactic(auto, using(crate::proofs::Soundness::sound_block, crate::proofs::Soundness::grown_sound))]
pub fn marks_are_right()
    ensures none { (table : Numbered) → AreSound table nothing }
    ensures block { (table : Numbered) (k : Carried) (txs : List Transaction) →
        IsCarried k → AreInOrder table.parents → k.blocks < length table.parents → AreSound table k →
        AreSound table (with_block table k txs) }
    ensures graph { (table : Numbered) (id salt : ℕ) (parents : List ℕ) (k : Carried) →
        AreInOrder table.parents → k.blocks ≤ length table.parents → IsCarried k → AreSound table k →
        AreSound (with_next table id salt parents) k }
{}

/// Carriers of blocks that were added one after another carry what the blocks do: an id is there
/// just where a block has it, and each block carries its transactions in their order, each one as
/// the first of all that has its id. Where transactions of the blocks that have one id are one
/// payment, that is itself.
#[tactic(auto, using(crate::proofs::Carrying::none_carried, crate::proofs::Carrying::block_carried, crate::proofs::Firsts::first_is_own))]
pub fn blocks_are_carried()
    ensures none { Carries [] nothing }
    ensures block { (table : Numbered) (blocks : List (List Transaction)) (k : Carried)
        (txs : List Transaction) → IsCarried k → Carries blocks k →
        Carries (blocks ++ txs ∷ []) (with_block table k txs) }
    ensures own { (blocks : List (List Transaction)) (t : Transaction) → ArePlain blocks →
        Contains (flat_map (λ b. b) blocks) t →
        payment_of (first_like (flat_map (λ b. b) blocks) t) ≡ payment_of t }
{}

/// The definitions computed on small ledgers: states and balances that were worked out by hand.
#[tactic(auto, unfolding(crate::specs::Ledger::accepts, crate::specs::Ledger::accepts_within, sp_model::specs::Votes::vote, sp_model::specs::Votes::virt, sp_model::specs::Votes::vote_within, sp_model::specs::Graph::in_past, sp_model::specs::Graph::reaches_within, sp_model::specs::Graph::complete, sp_model::specs::Graph::rounds))]
pub fn worked_examples()
    ensures tie_rejects { state_in example.two_spend 12 ≡ Rejected }
    ensures tie_rejects_both { state_in example.two_spend 13 ≡ Rejected }
    ensures tie_leaves { balance_in example.two_spend 1 ≡ 100 }
    ensures grant_accepted { state_in example.third_on_first 11 ≡ Accepted }
    ensures first_accepted { state_in example.third_on_first 12 ≡ Accepted }
    ensures second_rejected { state_in example.third_on_first 13 ≡ Rejected }
    ensures first_paid { balance_in example.third_on_first 2 ≡ 100 }
    ensures first_spent { balance_in example.third_on_first 1 ≡ 0 }
    ensures spent_on { balance_in example.third_spends 4 ≡ 100 }
    ensures turned_to_second { state_in example.two_on_second 13 ≡ Accepted }
    ensures first_turned { state_in example.two_on_second 12 ≡ Rejected }
    ensures spender_turned { state_in example.two_on_second 14 ≡ Rejected }
    ensures second_paid { balance_in example.two_on_second 3 ≡ 100 }
    ensures spender_unpaid { balance_in example.two_on_second 4 ≡ 0 }
    ensures ancestor_accepted { state_in example.spent_above 12 ≡ Accepted }
    ensures descendant_rejected { state_in example.spent_above 13 ≡ Rejected }
    ensures twice_accepted { state_in example.twice_carried 12 ≡ Accepted }
    ensures twice_paid_once { balance_in example.twice_carried 2 ≡ 100 }
    ensures wrong_word_rejected { state_in example.wrong_word 15 ≡ Rejected }
    ensures wrong_word_no_rival { state_in example.wrong_word 12 ≡ Accepted }
    ensures too_dear_rejected { state_in example.too_dear 15 ≡ Rejected }
    ensures too_dear_no_rival { state_in example.too_dear 12 ≡ Accepted }
    ensures above_both_accepted { state_in example.again_above_both 13 ≡ Accepted }
    ensures above_both_other { state_in example.again_above_both 12 ≡ Rejected }
    ensures beside_its_source { state_in example.beside_its_source 14 ≡ Rejected }
    ensures above_its_source { state_in example.above_its_source 14 ≡ Accepted }
    ensures source_beside { state_in example.source_in_anticone 14 ≡ Rejected }
    ensures not_carried { state_in example.beside_its_source 19 ≡ Absent }
{}

/// The first blocks are left as they were, whatever blocks came after them; and where no block goes,
/// all stays.
#[tactic(auto, using(crate::proofs::Cutting::cut_before, crate::proofs::Cutting::cut_whole))]
pub fn first_blocks_stay()
    ensures whole { (carried : Carried) → IsCarried carried → cut_to carried carried.blocks ≡ carried }
    ensures before { (table : Numbered) (carried : Carried) (txs : List Transaction) (n : ℕ) →
        IsCarried carried → n ≤ carried.blocks →
        cut_to (with_block table carried txs) n ≡ cut_to carried n }
{}
