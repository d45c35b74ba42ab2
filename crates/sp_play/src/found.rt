//! The inputs of a line that were judged so far. A line may have many, so the outpoints that they
//! spend are kept in an ordered set beside them.

ghost use Rattle.std.specs.Prelude.{◌≡◌, ◌++◌, ◌∷◌, [], OnErr, OnOk};
ghost use Rattle.sp_play.specs.Judging.{is_spent};

use sp_ids::Outpoint;
use sp_tx::{Input, Inputs};
use std::alloc::{AllocError, Global};
use std::collections::BTreeSet;
use std::marker::Model;

/// Inputs in the order in which they stand. Contracts see the list of them.
pub(crate) struct Found {
    spent: BTreeSet<Outpoint>,
    list: Vec<Input>,
}

impl Model for Found {
    ghost use Rattle.std.specs.Prelude.{List};
    ghost use Rattle.sp_tx.specs.declared.parts.Input.{Input};
    ghost use Rattle.sp_play.specs.Spent.{HasSpent};

    ghost Value = { List Input };

    ghost view = { λ found. found.list.items };

    ghost invariant = { λ found. HasSpent found.spent found.list.items };
}

// Written out, so that where it is let go there is one call, and not one for each of its fields.
impl Drop for Found {
    fn drop(self) {
        let Found { spent, list } = self;
        drop(spent);
        drop(list);
    }
}

impl Found {
    /// None yet.
    pub(crate) fn new(alloc: Global) -> Found
        ensures { result ≡ [] }
    {
        Found {
            spent: BTreeSet::new(alloc),
            list: Vec::new(alloc),
        }
    }

    /// Whether one of them spends this output.
    pub(crate) fn is_spent(&self, from: &Outpoint) -> bool
        ensures { result ≡ is_spent self.now from.now }
    {
        self.spent.contains(from)
    }

    /// Adds an input behind the others. After want of memory they are as before.
    pub(crate) fn push(&mut self, input: Input) -> Result<(), AllocError>
        ensures ok { OnOk result (self.new ≡ self.old ++ input ∷ []) }
        ensures err { OnErr result (self.new ≡ self.old) }
    {
        self.list.reserve(1)?;
        self.spent.insert(input.from)?;
        self.list.push_reserved(input);
        Ok(())
    }

    /// All of them.
    pub(crate) fn into_inputs(self) -> Inputs
        ensures { result ≡ self }
    {
        let Found { spent, list } = self;
        drop(spent);
        Inputs::of(list)
    }
}
