//! Graphs of blocks, each by the one byte of its id: what the tests of the graph and of its votes stand on.

ghost use Rattle.std.specs.Bool.{OnTrue};
ghost use Rattle.std.specs.Prelude.{◌≡◌, ◌+◌, ◌<◌, All, IfOk, IsFalse, IsTrue, OnErr, OnOk, length, replicate};
ghost use Rattle.sp_ids.specs.Key.{number_of};
ghost use Rattle.sp_model.specs.Graph.{has};

use sp_dag::Dag;
use sp_ids::BlockId;
use std::alloc::Global;
use std::test::Fail;

/// The id all of whose bytes are this one.
pub fn id(byte: u8) -> BlockId
    ensures { result ≡ number_of (replicate 32 byte) }
{
    BlockId::from_bytes([byte; 32])
}

fn are_in(dag: &Dag, ids: &[BlockId]) -> bool
    ensures { OnTrue result (All (λ id. IsTrue (has dag.now.ids id)) ids.now) }
{
    for id in ids {
        if dag.number(id).is_none() {
            return false;
        }
    }
    true
}

/// Refuses a new block that is there, that stands on unknown blocks or on none, or that is one too many.
pub fn check_new(dag: &Dag, new: &BlockId, parents: &[BlockId]) -> Result<(), Fail>
    ensures fresh { OnOk result (IsFalse (has dag.now.ids new.now)) }
    ensures some { OnOk result (0 < length parents.now) }
    ensures known { OnOk result (All (λ id. IsTrue (has dag.now.ids id)) parents.now) }
    ensures room { OnOk result (length dag.now.parents < 512) }
{
    if dag.number(new).is_some() || !are_in(dag, parents) {
        return Err("known, or on an unknown parent".into());
    }
    if dag.len() >= 512 || parents.is_empty() {
        return Err("too many blocks, or no parent".into());
    }
    Ok(())
}

/// Adds a block on others that are there, and answers its number.
pub fn add(alloc: Global, dag: &mut Dag, new: u8, parents: &[u8]) -> Result<u16, Fail>
    ensures number { IfOk result (λ number. number ≡ length dag.old.parents) }
    ensures long { OnOk result (length dag.new.parents ≡ length dag.old.parents + 1) }
    ensures err { OnErr result (dag.new ≡ dag.old) }
{
    let mut ids = Vec::new(alloc);
    for parent in parents {
        ids.push(id(*parent))?;
    }
    let new = id(new);
    check_new(dag, &new, &ids)?;
    Ok(dag.add(new, 0, &ids)?)
}
