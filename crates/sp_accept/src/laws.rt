//! Laws of acceptance and of carriers by number, over the definitions alone. Each is the contract of
//! a function that does nothing, so that the check proves it.

ghost use Rattle.std.specs.Prelude.{◌≡◌, ◌≤◌, ◌++◌, ◌∷◌, [], ℕ, List, length, IsTrue};
ghost use Rattle.sp_model.specs.Agreement.{AgreesOn};
ghost use Rattle.sp_model.specs.Graph.{AreDistinct, has, IsDownset};
ghost use Rattle.sp_model.specs.Renaming.{AreRenamed, IsRenamed};
ghost use Rattle.sp_tx.specs.Parts.{Transaction};
ghost use Rattle.sp_dag.specs.Numbered.{AreInOrder, IsNumbered, Numbered, with_next};
ghost use Rattle.sp_carry.specs.Payment.{Payment};
ghost use Rattle.sp_carry.specs.Ledger.{Ledger, IsPlain, accepts, is_accepted, state};
ghost use Rattle.sp_carry.specs.Carried.{Carried, IsCarried, ledger_of, with_block};
ghost use Rattle.sp_accept.specs.Acceptance.{Acceptance, first_blocks, IsRight};
ghost use Rattle.sp_accept.specs.Rows.{AreOf};
ghost use Rattle.sp_accept.specs.States.{state_by_number};

/// Other keys of the blocks, and any order of the lists, change no acceptance, where different
/// transactions have different ids. The other ledger may have more blocks under other keys.
#[tactic(auto, using(crate::proofs::Renamed::accepts_renamed, crate::proofs::Renamed::accepted_renamed, crate::proofs::Renamed::state_renamed))]
pub fn renaming()
    ensures carrier { (rename : ℕ → ℕ) (ledger other : Ledger) (set new : List ℕ) (z : ℕ) (t : Payment) →
        IsRenamed rename ledger.graph other.graph → IsDownset ledger.graph set → AreRenamed rename set new →
        AreDistinct set → AreDistinct new →
        ((w : ℕ) → IsTrue (has set w) → other.txs (rename w) ≡ ledger.txs w) → IsPlain ledger set →
        IsTrue (has set z) →
        accepts other new (rename z) t ≡ accepts ledger set z t }
    ensures id { (rename : ℕ → ℕ) (ledger other : Ledger) (set new : List ℕ) (id : ℕ) →
        IsRenamed rename ledger.graph other.graph → IsDownset ledger.graph set → AreRenamed rename set new →
        AreDistinct set → AreDistinct new →
        ((w : ℕ) → IsTrue (has set w) → other.txs (rename w) ≡ ledger.txs w) → IsPlain ledger set →
        is_accepted other new id ≡ is_accepted ledger set id }
    ensures state { (rename : ℕ → ℕ) (ledger other : Ledger) (set new : List ℕ) (id : ℕ) →
        IsRenamed rename ledger.graph other.graph → IsDownset ledger.graph set → AreRenamed rename set new →
        AreDistinct set → AreDistinct new →
        ((w : ℕ) → IsTrue (has set w) → other.txs (rename w) ≡ ledger.txs w) → IsPlain ledger set →
        state other new id ≡ state ledger set id }
{}

/// Acceptance in a set is the same in each ledger that agrees on the set, where different
/// transactions have different ids.
#[tactic(auto, using(crate::proofs::Renamed::accepts_restricted, crate::proofs::Renamed::accepted_restricted, crate::proofs::Renamed::state_restricted))]
pub fn restriction()
    ensures carrier { (ledger other : Ledger) (set : List ℕ) (z : ℕ) (t : Payment) →
        AgreesOn set ledger.graph other.graph → IsDownset ledger.graph set → AreDistinct set →
        ((w : ℕ) → IsTrue (has set w) → other.txs w ≡ ledger.txs w) → IsPlain ledger set →
        IsTrue (has set z) →
        accepts other set z t ≡ accepts ledger set z t }
    ensures id { (ledger other : Ledger) (set : List ℕ) (id : ℕ) →
        AgreesOn set ledger.graph other.graph → IsDownset ledger.graph set → AreDistinct set →
        ((w : ℕ) → IsTrue (has set w) → other.txs w ≡ ledger.txs w) → IsPlain ledger set →
        is_accepted other set id ≡ is_accepted ledger set id }
    ensures state { (ledger other : Ledger) (set : List ℕ) (id : ℕ) →
        AgreesOn set ledger.graph other.graph → IsDownset ledger.graph set → AreDistinct set →
        ((w : ℕ) → IsTrue (has set w) → other.txs w ≡ ledger.txs w) → IsPlain ledger set →
        state other set id ≡ state ledger set id }
{}

/// Flags that are right stay so, with one block more, and where the graph has one block more: the
/// number of blocks that they are of says which blocks count.
#[tactic(auto, using(crate::proofs::StillRight::right_of_block, crate::proofs::StillRight::right_of_graph))]
pub fn right_stays()
    ensures block { (table : Numbered) (k : Carried) (txs : List Transaction) (a : Acceptance) →
        IsCarried k → IsCarried (with_block table k txs) →
        AreInOrder table.parents → k.blocks ≤ length table.parents → IsRight table k a →
        IsRight table (with_block table k txs) a }
    ensures graph { (table : Numbered) (id salt : ℕ) (parents : List ℕ) (k : Carried)
        (a : Acceptance) → IsCarried k → IsNumbered table → k.blocks ≤ length table.parents →
        IsRight table k a → IsRight (with_next table id salt parents) k a }
{}

/// In the ledger of the carriers no two transactions have one id, and the state of each id is that
/// of its number's flag, where the flags are right.
#[tactic(auto, using(crate::proofs::States::numbered_plain, crate::proofs::States::states))]
pub fn states_by_number()
    ensures plain { (table : Numbered) (k : Carried) (set : List ℕ) → IsCarried k →
        IsPlain (ledger_of table k) set }
    ensures state { (table : Numbered) (k : Carried) (a : Acceptance) (id : ℕ) →
        IsCarried k → AreOf table k → IsRight table k a → a.blocks ≡ k.blocks →
        state (ledger_of table k) (first_blocks a.blocks) id ≡ state_by_number k a.txs id }
{}
