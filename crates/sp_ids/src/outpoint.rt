//! Outputs by name. They are compared by hand, so that the rule stands in a clause of this crate.

use crate::tx_id::TxId;
use std::cmp::Ordering;
use std::hash::{Hash, Hasher};

/// An output of a transaction. Outpoints are ordered by the transaction's id, and then by the
/// output's place there.
///
/// In bytes: the id (32 bytes), then the place (1 byte), read as one field of 33 bytes. The rule of
/// their order stands in docs/FORMATS.md under "Ids, locks and outpoints".
#[derive(Clone, Copy, Debug)]
pub struct Outpoint {
    /// The transaction that has the output.
    pub tx: TxId,
    /// The place of the output in the transaction, counted from 0.
    pub index: u8,
}

impl PartialEq for Outpoint {
    ghost use Rattle.std.proofs.Common.{rules};
    ghost use Rattle.std.specs.Cmp.Rules.{comparing};
    ghost use Rattle.sp_ids.specs.Outpoints.{same_outpoint};

    ghost eq = { same_outpoint };

    ghost laws = { Prim.search (comparing, rules) };

    fn eq(&self, other: &Outpoint) -> bool {
        self.tx == other.tx && self.index == other.index
    }
}

impl Eq for Outpoint {
    ghost use Rattle.std.proofs.Common.{rules};
    ghost use Rattle.std.specs.Cmp.Rules.{comparing};

    ghost laws = { Prim.search (comparing, rules) };
}

impl PartialOrd for Outpoint {
    ghost use Rattle.std.specs.Prelude.{Some};
    ghost use Rattle.std.proofs.Common.{rules};
    ghost use Rattle.std.specs.Cmp.Rules.{comparing};
    ghost use Rattle.sp_ids.specs.Outpoints.{outpoint_cmp};

    ghost partial_cmp = { λ x y. Some (outpoint_cmp x y) };

    ghost laws = { Prim.search (comparing, rules) };

    fn partial_cmp(&self, other: &Outpoint) -> Option<Ordering> {
        Some(self.cmp(other))
    }
}

impl Ord for Outpoint {
    ghost use Rattle.std.proofs.Common.{rules};
    ghost use Rattle.std.specs.Cmp.Rules.{comparing};
    ghost use Rattle.sp_ids.specs.Outpoints.{outpoint_cmp};

    ghost cmp = { outpoint_cmp };

    ghost total = { Prim.search (comparing, rules) };

    ghost matches_partial_cmp = { Prim.search (comparing, rules) };

    ghost matches_eq = { Prim.search (comparing, rules) };

    fn cmp(&self, other: &Outpoint) -> Ordering {
        self.tx.cmp(&other.tx).then(self.index.cmp(&other.index))
    }
}

impl Hash for Outpoint {
    ghost use Rattle.std.specs.Prelude.{◌++◌};
    ghost use Rattle.std.proofs.Common.{rules};
    ghost use Rattle.std.specs.Hash as fed;
    ghost use Rattle.std.specs.Cmp.Rules.{hashing};
    ghost use Rattle.sp_ids.specs.Key.{bytes_of};

    ghost hash_input = { λ o. fed.slice fed.u8 (bytes_of o.tx) ++ fed.u8 o.index };

    ghost respects_eq = { Prim.search (hashing, rules) };

    fn hash<H: Hasher>(&self, state: &mut H) {
        self.tx.hash(state);
        self.index.hash(state);
    }
}
