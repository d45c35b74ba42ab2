//! Laws of pasts and votes, over the definitions alone. Each is the contract of a function that
//! does nothing, so that the check proves it.

ghost use Rattle.std.specs.Prelude.{◌≡◌, ◌≢◌, ◌==◌, ◌||◌, ℕ, List, [], ◌∷◌, IsTrue, IsFalse, if◌then◌else◌, ℤ, pos, negsuc, neg_ℤ, Some};
ghost use Rattle.std.specs.List.{list_any};
ghost use Rattle.sp_model.specs.declared.profile.Profile.{Profile};
ghost use Rattle.sp_model.specs.declared.profile.Profile.TheVariants.{One, Two};
ghost use Rattle.sp_model.specs.declared.word.Word.TheVariants.{Before, After, Tie, Same, Absent};
ghost use Rattle.sp_model.specs.Graph.{Graph, IsDownset, IsGraph, AreDistinct, has, is_lower, keys, parents_of, rank_of, round, complete, reaches_within, in_past, past, bar, future, related, anticone};
ghost use Rattle.sp_model.specs.Agreement.{AgreesOn, AreShapedAlike};
ghost use Rattle.sp_model.specs.Joining.{Joins};
ghost use Rattle.sp_model.specs.Loose.{is_loose};
ghost use Rattle.sp_model.specs.Renaming.{AreRenamed, IsRenamed, IsWhollyRenamed};
ghost use Rattle.sp_model.specs.Profiles.{name, number, with_name, with_number};
ghost use Rattle.sp_model.specs.Votes.{sgn, total, settled_in, case_of, vote_by, vote, virt, word};
ghost use Rattle.sp_model.specs.Examples as example;
ghost use Rattle.sp_model.specs.Examples.{said};

/// The complete blocks are the least set that holds genesis and each block whose parents it holds.
#[tactic(auto, using(crate::proofs::Paths::complete_round, crate::proofs::Paths::complete_least))]
pub fn completeness()
    ensures closed { (graph : Graph) (z : ℕ) →
        IsTrue (has (round graph (complete graph)) z) → IsTrue (has (complete graph) z) }
    ensures least { (graph : Graph) (set : List ℕ) →
        ((z : ℕ) → IsTrue (has (round graph set) z) → IsTrue (has set z)) →
        (z : ℕ) → IsTrue (has (complete graph) z) → IsTrue (has set z) }
{}

/// The past of a complete block is its parents and their pasts, a path of any length leads into it,
/// and the block itself isn't in it.
#[tactic(auto, using(crate::proofs::Pasts::in_past_step, crate::proofs::Paths::in_past_by_path, crate::proofs::Pasts::not_in_own_past))]
pub fn past_by_steps()
    ensures parents { (graph : Graph) (a z : ℕ) → IsTrue (has (complete graph) z) →
        in_past graph a z ≡ list_any (λ parent. (parent == a) || in_past graph a parent) (parents_of graph z) }
    ensures path { (graph : Graph) (steps a z : ℕ) → IsTrue (has (complete graph) z) →
        IsTrue (reaches_within steps graph a z) → IsTrue (in_past graph a z) }
    ensures apart { (graph : Graph) (z : ℕ) → IsTrue (has (complete graph) z) →
        ¬ IsTrue (in_past graph z z) }
{}

/// The same of any block, be it complete or not: its past is its parents and their pasts, and a path
/// of any length leads into it. So the number of steps in the definition is no part of its meaning.
#[tactic(auto, using(crate::proofs::Reaching::in_past_any_step, crate::proofs::Reaching::in_past_by_any_path))]
pub fn past_of_any_block()
    ensures parents { (graph : Graph) (a z : ℕ) →
        in_past graph a z ≡ list_any (λ parent. (parent == a) || in_past graph a parent) (parents_of graph z) }
    ensures path { (graph : Graph) (steps a z : ℕ) →
        IsTrue (reaches_within steps graph a z) → IsTrue (in_past graph a z) }
{}

/// The complete blocks are a downset, and so is the past of each of them, so that the laws of
/// downsets speak of both. Where no key repeats in the graph, none repeats in them, nor in the
/// future of a block in such a set: a sum over one of these counts each voter once.
#[tactic(auto, using(crate::proofs::Pasts::complete_downset, crate::proofs::Pasts::past_downset, crate::proofs::Distinct::complete_distinct, crate::proofs::Distinct::past_distinct, crate::proofs::Distinct::future_distinct))]
pub fn downsets()
    ensures complete { (graph : Graph) → IsDownset graph (complete graph) }
    ensures past { (graph : Graph) (z : ℕ) → IsTrue (has (complete graph) z) →
        IsDownset graph (past graph z) }
    ensures complete_once { (graph : Graph) → AreDistinct (keys graph) →
        AreDistinct (complete graph) }
    ensures past_once { (graph : Graph) (z : ℕ) → AreDistinct (keys graph) →
        AreDistinct (past graph z) }
    ensures future_once { (graph : Graph) (set : List ℕ) (z : ℕ) → AreDistinct set →
        AreDistinct (future graph set z) }
{}

/// The vote of a member of a downset is given by the first case that applies, with no bound on how
/// deep the recursion goes.
#[tactic(auto, using(crate::proofs::Recursion::vote_is))]
pub fn vote_by_cases()
    ensures { (graph : Graph) (set : List ℕ) (z x y : ℕ) → IsDownset graph set → IsTrue (has set z) →
        vote graph set z x y
        ≡ vote_by (case_of graph z x y) graph set (λ below. virt graph below x y) (λ w. vote graph set w x y) z x y }
{}

/// The vote of a block that finds a tie on two others in its past: in profile 1 it is the tie, and in
/// profile 2 it is for the block of the lower rank, since no two blocks of a graph have one rank.
#[tactic(auto, using(crate::proofs::Ranks::by_lower))]
pub fn ties_of_voters()
    ensures kept { (graph : Graph) (x y : ℕ) → graph.profile ≡ One →
        settled_in graph x y (pos 0) ≡ pos 0 }
    ensures settled { (graph : Graph) (genesis x y : ℕ) → IsGraph graph genesis → graph.profile ≡ Two →
        IsTrue (has (keys graph) x) → IsTrue (has (keys graph) y) → x ≢ y →
        settled_in graph x y (pos 0)
        ≡ (if is_lower (rank_of graph x) (rank_of graph y) then negsuc 0 else pos 1) }
    ensures others { (graph : Graph) (x y : ℕ) (v : ℤ) → v ≢ pos 0 → settled_in graph x y v ≡ v }
{}

/// The virtual vote of a set is the sign of the sum of its members' votes.
#[tactic(auto, unfolding(crate::specs::Votes::virt))]
pub fn virtual_vote_by_sum()
    ensures { (graph : Graph) (set : List ℕ) (x y : ℕ) →
        virt graph set x y ≡ sgn (total (λ z. vote graph set z x y) set) }
{}

/// Neither ranks nor the profile of a graph change a past, a future or an anticone, nor which blocks
/// are complete.
#[tactic(auto, using(crate::proofs::Shapes::in_past_alike, crate::proofs::Shapes::past_alike, crate::proofs::Shapes::future_alike, crate::proofs::Shapes::related_alike, crate::proofs::Shapes::anticone_alike, crate::proofs::Shapes::complete_alike, crate::proofs::Shapes::downset_alike))]
pub fn pasts_ask_no_ranks()
    ensures in_past { (graph other : Graph) (a z : ℕ) → AreShapedAlike graph other →
        in_past other a z ≡ in_past graph a z }
    ensures past { (graph other : Graph) (z : ℕ) → AreShapedAlike graph other →
        past other z ≡ past graph z }
    ensures future { (graph other : Graph) (set : List ℕ) (z : ℕ) → AreShapedAlike graph other →
        future other set z ≡ future graph set z }
    ensures related { (graph other : Graph) (a b : ℕ) → AreShapedAlike graph other →
        related other a b ≡ related graph a b }
    ensures anticone { (graph other : Graph) (set : List ℕ) (z : ℕ) → AreShapedAlike graph other →
        anticone other set z ≡ anticone graph set z }
    ensures complete { (graph other : Graph) → AreShapedAlike graph other →
        complete other ≡ complete graph }
    ensures downset { (graph other : Graph) (set : List ℕ) → AreShapedAlike graph other →
        IsDownset graph set → IsDownset other set }
{}

/// Pasts and votes in a downset are the same in each graph of the same profile that agrees on the
/// set, ranks included.
#[tactic(auto, using(crate::proofs::Match::in_past_restricted, crate::proofs::Match::vote_restricted, crate::proofs::Match::virt_restricted))]
pub fn restriction()
    ensures past { (graph other : Graph) (set : List ℕ) (a z : ℕ) →
        AgreesOn set graph other → IsDownset graph set → IsTrue (has set z) →
        in_past other a z ≡ in_past graph a z }
    ensures vote { (graph other : Graph) (set : List ℕ) (z x y : ℕ) →
        AgreesOn set graph other → IsDownset graph set → AreDistinct set → IsTrue (has set z) →
        vote other set z x y ≡ vote graph set z x y }
    ensures virt { (graph other : Graph) (set : List ℕ) (x y : ℕ) →
        AgreesOn set graph other → IsDownset graph set → AreDistinct set →
        virt other set x y ≡ virt graph set x y }
{}

/// To exchange the two blocks turns each vote of a downset round.
#[tactic(auto, using(crate::proofs::Exchange::vote_neg, crate::proofs::Exchange::virt_neg))]
pub fn antisymmetry()
    ensures vote { (graph : Graph) (set : List ℕ) (z x y : ℕ) →
        IsDownset graph set → IsTrue (has set z) → x ≢ y →
        vote graph set z x y ≡ neg_ℤ (vote graph set z y x) }
    ensures virt { (graph : Graph) (set : List ℕ) (x y : ℕ) → IsDownset graph set → x ≢ y →
        virt graph set x y ≡ neg_ℤ (virt graph set y x) }
{}

/// A block of a downset comes after each block of its past.
#[tactic(auto, using(crate::proofs::Ancestors::virt_ancestor))]
pub fn ancestors_first()
    ensures { (graph : Graph) (set : List ℕ) (x y : ℕ) → IsDownset graph set →
        IsTrue (has set y) → IsTrue (in_past graph x y) → virt graph set x y ≡ negsuc 0 }
{}

/// Other keys, where each block keeps its rank, and any order of the lists change no past, future, anticone, downset, vote or word.
/// The new keys are told apart where the old ones are keys of the graph; there may be more blocks
/// under other keys.
#[tactic(auto, using(crate::proofs::Renamed::in_past_renamed, crate::proofs::Renamed::downset_renamed, crate::proofs::Renamed::future_renamed, crate::proofs::Renamed::anticone_renamed, crate::proofs::Renamed::vote_renamed, crate::proofs::Renamed::virt_renamed, crate::proofs::Renamed::word_renamed))]
pub fn renaming()
    ensures past { (rename : ℕ → ℕ) (graph other : Graph) (a z : ℕ) → IsRenamed rename graph other →
        IsTrue (has (keys graph) a) → IsTrue (has (complete graph) z) →
        in_past other (rename a) (rename z) ≡ in_past graph a z }
    ensures future { (rename : ℕ → ℕ) (graph other : Graph) (set new : List ℕ) (a z : ℕ) →
        IsRenamed rename graph other → IsDownset graph set → AreRenamed rename set new →
        IsTrue (has (keys graph) a) → IsTrue (has (keys graph) z) →
        has (future other new (rename z)) (rename a) ≡ has (future graph set z) a }
    ensures anticone { (rename : ℕ → ℕ) (graph other : Graph) (set new : List ℕ) (a z : ℕ) →
        IsRenamed rename graph other → IsDownset graph set → AreRenamed rename set new →
        IsTrue (has (keys graph) a) → IsTrue (has set z) →
        has (anticone other new (rename z)) (rename a) ≡ has (anticone graph set z) a }
    ensures downset { (rename : ℕ → ℕ) (graph other : Graph) (set new : List ℕ) →
        IsRenamed rename graph other → IsDownset graph set → AreRenamed rename set new →
        IsDownset other new }
    ensures vote { (rename : ℕ → ℕ) (graph other : Graph) (set new : List ℕ) (z x y : ℕ) →
        IsRenamed rename graph other → IsDownset graph set → AreRenamed rename set new →
        AreDistinct set → AreDistinct new →
        IsTrue (has (keys graph) x) → IsTrue (has (keys graph) y) → IsTrue (has set z) →
        vote other new (rename z) (rename x) (rename y) ≡ vote graph set z x y }
    ensures virt { (rename : ℕ → ℕ) (graph other : Graph) (set new : List ℕ) (x y : ℕ) →
        IsRenamed rename graph other → IsDownset graph set → AreRenamed rename set new →
        AreDistinct set → AreDistinct new →
        IsTrue (has (keys graph) x) → IsTrue (has (keys graph) y) →
        virt other new (rename x) (rename y) ≡ virt graph set x y }
    ensures word { (rename : ℕ → ℕ) (graph other : Graph) (set new : List ℕ) (x y : ℕ) →
        IsRenamed rename graph other → IsDownset graph set → AreRenamed rename set new →
        AreDistinct set → AreDistinct new →
        IsTrue (has (keys graph) x) → IsTrue (has (keys graph) y) →
        word other new (rename x) (rename y) ≡ word graph set x y }
{}

/// Where all numbers have different new keys and the other list has no further blocks, other keys
/// and any order of the lists change no past, future or anticone of any block in any set, be it
/// complete or not, nor which blocks are complete.
#[tactic(auto, using(crate::proofs::Everywhere::in_past_everywhere, crate::proofs::Everywhere::past_everywhere, crate::proofs::Everywhere::bar_everywhere, crate::proofs::Everywhere::complete_everywhere, crate::proofs::Everywhere::related_everywhere, crate::proofs::Everywhere::future_everywhere, crate::proofs::Everywhere::anticone_everywhere))]
pub fn renaming_everywhere()
    ensures in_past { (rename : ℕ → ℕ) (graph other : Graph) (a z : ℕ) →
        IsWhollyRenamed rename graph other →
        in_past other (rename a) (rename z) ≡ in_past graph a z }
    ensures past { (rename : ℕ → ℕ) (graph other : Graph) (z a : ℕ) →
        IsWhollyRenamed rename graph other →
        has (past other (rename z)) (rename a) ≡ has (past graph z) a }
    ensures bar { (rename : ℕ → ℕ) (graph other : Graph) (z a : ℕ) →
        IsWhollyRenamed rename graph other →
        has (bar other (rename z)) (rename a) ≡ has (bar graph z) a }
    ensures complete { (rename : ℕ → ℕ) (graph other : Graph) (z : ℕ) →
        IsWhollyRenamed rename graph other →
        has (complete other) (rename z) ≡ has (complete graph) z }
    ensures related { (rename : ℕ → ℕ) (graph other : Graph) (a b : ℕ) →
        IsWhollyRenamed rename graph other →
        related other (rename a) (rename b) ≡ related graph a b }
    ensures future { (rename : ℕ → ℕ) (graph other : Graph) (set new : List ℕ) (z a : ℕ) →
        IsWhollyRenamed rename graph other → AreRenamed rename set new →
        has (future other new (rename z)) (rename a) ≡ has (future graph set z) a }
    ensures anticone { (rename : ℕ → ℕ) (graph other : Graph) (set new : List ℕ) (z a : ℕ) →
        IsWhollyRenamed rename graph other → AreRenamed rename set new →
        has (anticone other new (rename z)) (rename a) ≡ has (anticone graph set z) a }
{}

/// A frozen vote is the same in every downset, and a loose one is the sign of the sum of the votes
/// of the future.
#[tactic(auto, using(crate::proofs::Loose::frozen_same, crate::proofs::Loose::loose_vote))]
pub fn frozen_and_loose_votes()
    ensures frozen { (graph : Graph) (set other : List ℕ) (z x y : ℕ) →
        IsDownset graph set → IsDownset graph other → IsTrue (has set z) → IsTrue (has other z) →
        IsFalse (is_loose graph z x y) → vote graph set z x y ≡ vote graph other z x y }
    ensures loose { (graph : Graph) (set : List ℕ) (z x y : ℕ) →
        IsDownset graph set → IsTrue (has set z) → IsTrue (is_loose graph z x y) →
        vote graph set z x y ≡ sgn (total (λ w. vote graph set w x y) (future graph set z)) }
{}

/// Where a block joins a downset, only the votes of its past can change, only those that differ from
/// its own, and none where it votes for neither. A loose block votes for neither.
#[tactic(auto, using(crate::proofs::Joined::apart_stays, crate::proofs::Joined::agreeing_stays, crate::proofs::Joined::tie_stays, crate::proofs::Joined::loose_joins))]
pub fn votes_where_a_block_joins()
    ensures apart { (graph : Graph) (b : ℕ) (set more : List ℕ) (z x y : ℕ) →
        Joins graph b set more → IsTrue (has set z) → IsFalse (in_past graph z b) →
        vote graph more z x y ≡ vote graph set z x y }
    ensures agreeing { (graph : Graph) (b : ℕ) (set more : List ℕ) (z x y : ℕ) →
        Joins graph b set more → x ≢ y → IsTrue (has set z) →
        vote graph set z x y ≡ vote graph more b x y →
        vote graph more z x y ≡ vote graph set z x y }
    ensures tie { (graph : Graph) (b : ℕ) (set more : List ℕ) (z x y : ℕ) →
        Joins graph b set more → x ≢ y → IsTrue (has set z) →
        vote graph more b x y ≡ pos 0 →
        vote graph more z x y ≡ vote graph set z x y }
    ensures loose { (graph : Graph) (b : ℕ) (set more : List ℕ) (x y : ℕ) →
        Joins graph b set more → IsTrue (is_loose graph b x y) → vote graph more b x y ≡ pos 0 }
{}

/// The definitions computed on small graphs: pasts, and words that were worked out by hand.
#[tactic(auto, unfolding(crate::specs::Votes::vote, crate::specs::Votes::virt, crate::specs::Votes::vote_within, crate::specs::Graph::in_past, crate::specs::Graph::reaches_within, crate::specs::Graph::complete, crate::specs::Graph::rounds))]
pub fn worked_examples()
    ensures past { past example.third_on_first 3 ≡ 0 ∷ 1 ∷ [] }
    ensures bar { bar example.third_on_first 3 ≡ 3 ∷ 0 ∷ 1 ∷ [] }
    ensures future { future example.third_on_first (0 ∷ 1 ∷ 2 ∷ 3 ∷ []) 1 ≡ 3 ∷ [] }
    ensures related { IsTrue (related example.third_on_first 3 0) }
    ensures anticone { anticone example.third_on_first (0 ∷ 1 ∷ 2 ∷ 3 ∷ []) 2 ≡ 1 ∷ 3 ∷ [] }
    ensures complete { complete example.incomplete ≡ 0 ∷ 1 ∷ [] }
    ensures absent { said example.incomplete 1 3 ≡ Absent }

    ensures two_blocks_tie { said example.two_on_genesis 1 2 ≡ Tie }
    ensures a_third_decides { said example.third_on_first 1 2 ≡ Before }
    ensures turned { said example.third_on_first 2 1 ≡ After }
    ensures genesis_first { said example.third_on_first 0 1 ≡ Before }
    ensures genesis_second { said example.third_on_first 0 2 ≡ Before }
    ensures genesis_third { said example.third_on_first 0 3 ≡ Before }
    ensures parent_first { said example.third_on_first 1 3 ≡ Before }
    ensures late_block { said example.third_on_first 2 3 ≡ After }
    ensures two_more_outvote { said example.two_on_second 1 2 ≡ After }
    ensures chain { said example.chain 1 2 ≡ Before }
    ensures chain_genesis { said example.chain 0 1 ≡ Before }
    ensures same { said example.chain 1 1 ≡ Same }
    ensures voter_keeps_a_tie { said example.diamond 1 2 ≡ Tie }
    ensures no_voter_settles { said (example.settled_two 1 2) 1 2 ≡ Tie }
    ensures voter_settles { said (example.settled_diamond 1 2) 1 2 ≡ Before }
    ensures both_vote_so { total (λ z. vote (example.settled_diamond 1 2) (0 ∷ 1 ∷ 2 ∷ 3 ∷ []) z 1 2) (0 ∷ 1 ∷ 2 ∷ 3 ∷ []) ≡ negsuc 1 }
    ensures settled_by_salt { said (example.settled_diamond 2 1) 1 2 ≡ After }
    ensures settled_by_id { said (example.settled_diamond 1 1) 1 2 ≡ Before }
    ensures cycle_first { said example.cycle_of_three 1 2 ≡ Before }
    ensures cycle_second { said example.cycle_of_three 2 3 ≡ Before }
    ensures cycle_third { said example.cycle_of_three 3 1 ≡ Before }
{}

/// Each profile has a number of its own and, behind any stem, a name of its own: what is read back
/// is the profile that was written.
#[tactic(auto, using(crate::proofs::ProfileNames::named))]
pub fn numbers_of_profiles()
    ensures number { (profile : Profile) → with_number (number profile) ≡ Some profile }
    ensures no_other { (n : ℕ) (profile : Profile) → with_number n ≡ Some profile → n ≡ number profile }
    ensures name { (stem : List ℕ) (profile : Profile) → with_name stem (name stem profile) ≡ Some profile }
    ensures no_other_name { (stem bytes : List ℕ) (profile : Profile) → with_name stem bytes ≡ Some profile → bytes ≡ name stem profile }
{}
