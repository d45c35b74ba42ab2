//! Lists that contracts see as lists, without where they lie in memory.

ghost use Rattle.std.specs.Prelude.{◌≡◌, IfOk, OnOk};
ghost use Rattle.sp_tx.specs.Sorting.{IsSortOf};

use crate::parts::{Input, Output};
use crate::tx::Tx;
use std::alloc::{AllocError, Global};
use std::marker::Model;

/// Bytes, as a preimage or a block's.
#[derive(Debug, Drop)]
pub struct Bytes {
    list: Vec<u8>,
}

impl Model for Bytes {
    ghost use Rattle.std.specs.Prelude.{List, ℕ};

    ghost Value = { List ℕ };

    ghost view = { λ l. l.list.items };
}

impl Bytes {
    /// The list of these elements. It takes a bounded number of steps, as `as_slice` does.
    pub fn of(list: Vec<u8>) -> Bytes
        ensures { result ≡ list.items }
    {
        Bytes { list }
    }

    /// Its elements.
    pub fn as_slice(&self) -> &[u8]
        ensures { result.now ≡ self.now }
    {
        self.list.as_slice()
    }
}

fn sort(alloc: Global, inputs: &mut [Input]) -> Result<(), AllocError>
    ensures { OnOk result (IsSortOf inputs.old inputs.new) }
{
    inputs.sort_by_key(alloc, |input| input.from)?;
    Ok(())
}

/// The inputs of a transaction.
#[derive(Debug, Drop)]
pub struct Inputs {
    list: Vec<Input>,
}

impl Model for Inputs {
    ghost use Rattle.std.specs.Prelude.{List};
    ghost use Rattle.sp_tx.specs.declared.parts.Input.{Input};

    ghost Value = { List Input };

    ghost view = { λ l. l.list.items };
}

impl Inputs {
    /// The list of these elements. It takes a bounded number of steps, as `as_slice` does.
    pub fn of(list: Vec<Input>) -> Inputs
        ensures { result ≡ list.items }
    {
        Inputs { list }
    }

    /// Its elements.
    pub fn as_slice(&self) -> &[Input]
        ensures { result.now ≡ self.now }
    {
        self.list.as_slice()
    }

    /// The same inputs by outpoint, those of equal outpoints in their order.
    pub(crate) fn sorted(self, alloc: Global) -> Result<Inputs, AllocError>
        ensures { IfOk result (IsSortOf self) }
    {
        let Inputs { mut list } = self;
        sort(alloc, list.as_mut_slice())?;
        Ok(Inputs { list })
    }
}

/// The outputs of a transaction.
#[derive(Debug, Drop)]
pub struct Outputs {
    list: Vec<Output>,
}

impl Model for Outputs {
    ghost use Rattle.std.specs.Prelude.{List};
    ghost use Rattle.sp_tx.specs.declared.parts.Output.{Output};

    ghost Value = { List Output };

    ghost view = { λ l. l.list.items };
}

impl Outputs {
    /// The list of these elements. It takes a bounded number of steps, as `as_slice` does.
    pub fn of(list: Vec<Output>) -> Outputs
        ensures { result ≡ list.items }
    {
        Outputs { list }
    }

    /// Its elements.
    pub fn as_slice(&self) -> &[Output]
        ensures { result.now ≡ self.now }
    {
        self.list.as_slice()
    }
}

/// The transactions of a block.
#[derive(Debug, Drop)]
pub struct Txs {
    list: Vec<Tx>,
}

impl Model for Txs {
    ghost use Rattle.std.specs.Prelude.{List};
    ghost use Rattle.sp_tx.specs.Parts.{Transaction};

    ghost Value = { List Transaction };

    ghost view = { λ l. l.list.items };
}

impl Txs {
    /// The list of these elements. It takes a bounded number of steps, as `as_slice` does.
    pub fn of(list: Vec<Tx>) -> Txs
        ensures { result ≡ list.items }
    {
        Txs { list }
    }

    /// Its elements.
    pub fn as_slice(&self) -> &[Tx]
        ensures { result.now ≡ self.now }
    {
        self.list.as_slice()
    }
}
