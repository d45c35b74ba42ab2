//! What genesis alone says: its number, its votes, its transactions, which of them are accepted, and
//! what they leave.
//! It stands apart from the making of an engine, since all that is let go where memory was refused
//! makes the proof of one function long.

ghost use Rattle.std.specs.Prelude.{◌≡◌, ◌≤◌, ◌∷◌, [], IfOk, length};
ghost use Rattle.sp_dag.specs.Numbered.{IsNumbered};
ghost use Rattle.sp_carry.specs.Carried.{IsCarried, nothing, with_block};
ghost use Rattle.sp_accept.specs.Acceptance.{IsRight};
ghost use Rattle.sp_accept.specs.Rows.{AreOf};
ghost use Rattle.sp_engine.specs.Engine.{IsPaying};
ghost use Rattle.sp_engine.specs.Votes.{AreFew, AreVoted};

use crate::acceptance::accept_all;
use crate::votes::Votes;
use sp_accept::Accepted;
use sp_carry::Carriers;
use sp_dag::Dag;
use sp_ids::{BlockId, Memory};
use sp_model::Profile;
use sp_money::Purse;
use sp_tx::Txs;
use sp_view::Saved;
use std::alloc::Global;

/// Genesis as the only numbered block, and what is decided on it.
#[derive(Drop)]
pub(crate) struct First {
    pub(crate) dag: Dag,
    pub(crate) decided: Decided,
}

/// The votes of genesis, and what stands of its transactions.
#[derive(Drop)]
pub(crate) struct Decided {
    pub(crate) votes: Votes,
    pub(crate) money: Money,
}

/// The carriers of genesis, which of these are accepted, and what they leave.
pub(crate) struct Money {
    pub(crate) carriers: Carriers,
    pub(crate) accepted: Accepted,
    pub(crate) purse: Purse,
}

// Written out, so that where it is let go there is one call.
impl Drop for Money {
    fn drop(self) {
        let Money {
            carriers: _,
            accepted: _,
            purse: _,
        } = self;
    }
}

impl Money {
    /// Its three parts.
    pub(crate) fn parts(self) -> (Carriers, Accepted, Purse)
        ensures { result ≡ (self.carriers, self.accepted, self.purse) }
    {
        let Money {
            carriers,
            accepted,
            purse,
        } = self;
        (carriers, accepted, purse)
    }
}

/// What genesis alone says, which has this id, salt and transactions.
///
/// # Errors
///
/// `Memory` where there was none.
pub(crate) fn first_of(
    alloc: Global,
    id: BlockId,
    salt: u64,
    profile: Profile,
    txs: &Txs,
) -> Result<First, Memory>
    requires { length txs.now ≤ 256 }
    ensures dag { IfOk result (λ first.
        first.dag ≡ record {
          profile = profile;
          ids = id ∷ [];
          salts = salt ∷ [];
          parents = [] ∷ [];
        }) }
    ensures numbered { IfOk result (λ first. IsNumbered first.dag) }
    ensures voted { IfOk result (λ first. AreVoted first.dag first.decided.votes) }
    ensures few { IfOk result (λ first. AreFew first.decided.votes) }
    ensures carriers { IfOk result (λ first. first.decided.money.carriers
        ≡ with_block first.dag nothing txs.now) }
    ensures carried { IfOk result (λ first. IsCarried first.decided.money.carriers) }
    ensures right { IfOk result (λ first. IsRight first.dag
        first.decided.money.carriers first.decided.money.accepted) }
    ensures all { IfOk result (λ first.
        first.decided.money.accepted.blocks ≡ first.decided.money.carriers.blocks) }
    ensures paying { IfOk result (λ first.
        IsPaying first.decided.money.carriers first.decided.money.accepted first.decided.money.purse) }
{
    let dag = Dag::new(alloc, id, salt, profile)?;
    // Tells the proof what numbered blocks are.
    let _blocks = dag.len();
    let decided = first_decided(alloc, &dag, txs)?;
    Ok(First { dag, decided })
}

// What is decided on genesis, which is the only numbered block.
fn first_decided(alloc: Global, dag: &Dag, txs: &Txs) -> Result<Decided, Memory>
    requires alone { dag.now.parents ≡ [] ∷ [] }
    requires few { length txs.now ≤ 256 }
    ensures voted { IfOk result (λ decided. AreVoted dag.now decided.votes) }
    ensures few { IfOk result (λ decided. AreFew decided.votes) }
    ensures carriers { IfOk result (λ decided.
        decided.money.carriers ≡ with_block dag.now nothing txs.now) }
    ensures carried { IfOk result (λ decided. IsCarried decided.money.carriers) }
    ensures right { IfOk result (λ decided.
        IsRight dag.now decided.money.carriers decided.money.accepted) }
    ensures all { IfOk result (λ decided.
        decided.money.accepted.blocks ≡ decided.money.carriers.blocks) }
    ensures paying { IfOk result (λ decided. IsPaying decided.money.carriers
        decided.money.accepted decided.money.purse) }
{
    let votes = first_votes(alloc, dag)?;
    let money = first_money(alloc, dag, &votes, txs)?;
    Ok(Decided { votes, money })
}

// What stands of the transactions of genesis, which is the only numbered block.
fn first_money(alloc: Global, dag: &Dag, votes: &Votes, txs: &Txs) -> Result<Money, Memory>
    requires alone { dag.now.parents ≡ [] ∷ [] }
    requires few { length txs.now ≤ 256 }
    requires voted { AreVoted dag.now votes.now }
    ensures carriers { IfOk result (λ money.
        money.carriers ≡ with_block dag.now nothing txs.now) }
    ensures carried { IfOk result (λ money. IsCarried money.carriers) }
    ensures right { IfOk result (λ money.
        IsRight dag.now money.carriers money.accepted) }
    ensures all { IfOk result (λ money. money.accepted.blocks ≡ money.carriers.blocks) }
    ensures paying { IfOk result (λ money.
        IsPaying money.carriers money.accepted money.purse) }
{
    // Tells the proof what numbered blocks are.
    let _blocks = dag.len();
    let carriers = first_carriers(alloc, dag, txs)?;
    let (accepted, purse) = first_accepted(alloc, dag, votes, &carriers)?;
    Ok(Money {
        carriers,
        accepted,
        purse,
    })
}

// The votes of genesis.
fn first_votes(alloc: Global, dag: &Dag) -> Result<Votes, Memory>
    requires { dag.now.parents ≡ [] ∷ [] }
    ensures voted { IfOk result (AreVoted dag.now) }
    ensures few { IfOk result AreFew }
{
    // Tells the proof what numbered blocks are.
    let _blocks = dag.len();
    let mut votes = Votes::new(alloc)?;
    // There are no tips from before, and there is nothing to put back.
    let mut saved = Saved::new(alloc);
    votes.add(dag, 0, &mut saved)?;
    Ok(votes)
}

// The carriers of genesis.
fn first_carriers(alloc: Global, dag: &Dag, txs: &Txs) -> Result<Carriers, Memory>
    requires { length txs.now ≤ 256 }
    ensures first { IfOk result (λ carriers.
        carriers ≡ with_block dag.now nothing txs.now) }
    ensures carried { IfOk result IsCarried }
{
    // Tells the proof that there is a block.
    let _blocks = dag.len();
    let mut carriers = Carriers::new(alloc);
    carriers.add(dag, 0, txs)?;
    // Tells the proof what carriers are.
    let _added = carriers.block_count();
    Ok(carriers)
}

// What is accepted of all carriers, and what it leaves.
fn first_accepted(
    alloc: Global,
    dag: &Dag,
    votes: &Votes,
    carriers: &Carriers,
) -> Result<(Accepted, Purse), Memory>
    requires voted { AreVoted dag.now votes.now }
    requires of { AreOf dag.now carriers.now }
    ensures right { IfOk result (λ found. IsRight dag.now carriers.now found.0) }
    ensures all { IfOk result (λ found. found.0.blocks ≡ carriers.now.blocks) }
    ensures paying { IfOk result (λ found. IsPaying carriers.now found.0 found.1) }
{
    let mut accepted = Accepted::new(alloc);
    let mut purse = Purse::new(alloc);
    // Nothing was decided before.
    accept_all(dag, votes, carriers, &[], 0, &mut accepted, &mut purse)?;
    Ok((accepted, purse))
}
