//! Laws of graphs that are numbered in order, over the definitions alone. Each is the contract of a
//! function that does nothing, so that the check proves it.

ghost use Rattle.std.specs.Prelude.{◌≡◌, ◌<◌, ◌≤◌, ◌++◌, ◌∷◌, [], ℕ, List, IsTrue, Some, length, map, slice_get, slice_index_or};
ghost use Rattle.std.specs.List.{range_with_len};
ghost use Rattle.sp_model.specs.Graph.{IsGraph, IsDownset, AreDistinct, has, keys, parents_of, rank_of, complete, in_past, past, future};
ghost use Rattle.sp_dag.specs.Numbered.{Numbered, IsNumbered, AreInOrder, graph_of, number_of, pairs_of, rank_at, unrelated_below, with_next};

/// The numbered blocks are a graph: no number and no rank repeats, block 0 is the one without
/// parents, and each is complete, so that the laws of the model speak of it.
#[tactic(auto, using(crate::proofs::Ranked::IsGraph_numbered, crate::proofs::Ranked::keys_are_numbers, crate::proofs::Ranked::complete_numbered, crate::proofs::Ranked::parents_numbered, crate::proofs::Ranked::rank_numbered, crate::proofs::Ranked::downset_numbered))]
pub fn numbered_is_graph()
    ensures graph { (blocks : Numbered) → IsNumbered blocks → IsGraph (graph_of blocks) 0 }
    ensures keys { (blocks : Numbered) →
        keys (graph_of blocks) ≡ range_with_len 0 (length blocks.parents) }
    ensures parents { (blocks : Numbered) (z : ℕ) → z < length blocks.parents →
        parents_of (graph_of blocks) z ≡ slice_index_or blocks.parents z [] }
    ensures ranks { (blocks : Numbered) (z : ℕ) → z < length blocks.parents →
        rank_of (graph_of blocks) z ≡ rank_at blocks z }
    ensures complete { (blocks : Numbered) (z : ℕ) → AreInOrder blocks.parents →
        z < length blocks.parents → IsTrue (has (complete (graph_of blocks)) z) }
    ensures downset { (blocks : Numbered) → AreInOrder blocks.parents →
        IsDownset (graph_of blocks) (keys (graph_of blocks)) }
{}

/// An ancestor has a lower number, and the rows have just the blocks that the graph says.
#[tactic(auto, using(crate::proofs::Ranked::ancestors_lower, crate::proofs::Ranked::past_members, crate::proofs::Ranked::future_members))]
pub fn ancestors()
    ensures lower { (blocks : Numbered) (a z : ℕ) → AreInOrder blocks.parents →
        z < length blocks.parents → IsTrue (in_past (graph_of blocks) a z) → a < z }
    ensures past { (blocks : Numbered) (a z : ℕ) → AreInOrder blocks.parents →
        z < length blocks.parents → has (past (graph_of blocks) z) a ≡ in_past (graph_of blocks) a z }
    ensures future { (blocks : Numbered) (z w : ℕ) →
        has (future (graph_of blocks) (keys (graph_of blocks)) z) w ≡ in_past (graph_of blocks) z w }
{}

/// A block that is added changes no past and no rank, and its pairs stand behind those from before:
/// pairs stand by their higher numbers.
#[tactic(auto, using(crate::proofs::Ranked::past_old, crate::proofs::Ranked::rank_old, crate::proofs::Ranked::pairs_behind, crate::proofs::Ranked::pairs_ascend))]
pub fn pasts_stay()
    ensures past { (blocks : Numbered) (id salt : ℕ) (parents : List ℕ) (a z : ℕ) →
        AreInOrder blocks.parents → z < length blocks.parents →
        in_past (graph_of (with_next blocks id salt parents)) a z ≡ in_past (graph_of blocks) a z }
    ensures rank { (blocks : Numbered) (id salt : ℕ) (parents : List ℕ) (z : ℕ) →
        IsNumbered blocks → z < length blocks.parents →
        rank_at (with_next blocks id salt parents) z ≡ rank_at blocks z }
    ensures pairs { (blocks : Numbered) (id salt : ℕ) (parents : List ℕ) →
        AreInOrder blocks.parents →
        let more = with_next blocks id salt parents in
        let below = unrelated_below (graph_of more) (length blocks.parents) in
        pairs_of more ≡ pairs_of blocks ++ map (λ x. (x, length blocks.parents)) below }
    ensures order { (blocks : Numbered) (i j : ℕ) (pair later : ℕ × ℕ) →
        AreInOrder blocks.parents → i ≤ j → slice_get (pairs_of blocks) i ≡ Some pair →
        slice_get (pairs_of blocks) j ≡ Some later → pair.1 ≤ later.1 }
{}

/// Ids and numbers name one another, and a block that is added changes no number.
#[tactic(auto, using(crate::proofs::Ids::number_of_id, crate::proofs::Ids::id_of_number, crate::proofs::Ids::number_of_stays))]
pub fn ids_and_numbers()
    ensures number { (ids : List ℕ) (id n : ℕ) → AreDistinct ids → slice_get ids n ≡ Some id →
        number_of ids id ≡ n }
    ensures id { (ids : List ℕ) (id : ℕ) → IsTrue (has ids id) →
        slice_get ids (number_of ids id) ≡ Some id }
    ensures stays { (ids : List ℕ) (id other : ℕ) → IsTrue (has ids id) →
        number_of (ids ++ other ∷ []) id ≡ number_of ids id }
{}
