//! Laws of the payments that kept blocks carry: the rules of blocks and transactions give what the
//! laws of acceptance and balances ask of a ledger, so these hold of each list of kept blocks.
//! Each is the contract of a function that does nothing, or that calls another law, so that the
//! check proves it.

ghost use Rattle.std.specs.Prelude.{◌≡◌, ◌<◌, ◌≤◌, ◌^◌, ◌∷◌, ℕ, map, sum_by, Contains, IsFalse, IsTrue, List};
ghost use Rattle.sp_block.specs.Block.{ReadBlock};
ghost use Rattle.sp_model.specs.declared.profile.Profile.{Profile};
ghost use Rattle.sp_model.specs.Graph.{AreDistinct};
ghost use Rattle.sp_pool.specs.Kept.{present, AreKept};
ghost use Rattle.sp_engine.specs.Transactions.{balance_by_id, ledger_by_id, ledger_of};
ghost use Rattle.sp_carry.specs.Ledger.{accepted_carriers, is_accepted, HasNoTwins, IsPlain, NamesOnce};
ghost use Rattle.sp_carry.specs.Payment.{conflicts, paid_amount, payment_of, Payment, Spent};

/// No two transactions of one block conflict, and none has an outpoint twice.
pub fn no_twins()
    ensures apart { (profile : Profile) (kept : List ReadBlock) → AreKept kept → HasNoTwins (ledger_of profile kept) (present kept) }
    ensures once { (profile : Profile) (kept : List ReadBlock) → AreKept kept → NamesOnce (ledger_of profile kept) (present kept) }
{}

/// Where different transactions of the present blocks have different ids, no two accepted ones
/// conflict; and the transaction of each input of an accepted one is accepted, whatever ids there
/// are.
pub fn accepted_agree()
    ensures no_conflict { (profile : Profile) (kept : List ReadBlock) (t u : Payment) → AreKept kept →
        IsPlain (ledger_of profile kept) (present kept) →
        Contains (accepted_carriers (ledger_by_id profile kept) (present kept)) t →
        Contains (accepted_carriers (ledger_by_id profile kept) (present kept)) u →
        IsFalse (conflicts t u) }
    ensures sources { (profile : Profile) (kept : List ReadBlock) (t : Payment) (i : Spent) →
        Contains (accepted_carriers (ledger_by_id profile kept) (present kept)) t → Contains t.inputs i →
        IsTrue (is_accepted (ledger_by_id profile kept) (present kept) i.from.tx) }
{}

/// Where different transactions of the present blocks have different ids, what is left under any
/// different locks is together at most what genesis grants, whose block is the first one kept.
pub fn nothing_is_made()
    ensures { (profile : Profile) (kept others : List ReadBlock) (genesis : ReadBlock) (locks : List ℕ) →
        AreKept kept → kept ≡ genesis ∷ others → IsPlain (ledger_of profile kept) (present kept) →
        AreDistinct locks →
        sum_by (balance_by_id profile kept) locks ≤ sum_by paid_amount (map payment_of genesis.txs) }
{
    sp_pool::laws::kept_blocks_are_a_graph();
}

/// What is left under a lock fits 81 bits, whether or not two transactions have one id: at most 512
/// blocks carry at most 256 transactions each, and the outputs of each are together below 2^63.
#[tactic(auto, using(crate::proofs::SmallBalances::small_balance))]
pub fn balances_are_small()
    ensures { (profile : Profile) (kept : List ReadBlock) (lock : ℕ) → AreKept kept → balance_by_id profile kept lock < 2 ^ 81 }
{}
