//! Transactions.

ghost use Rattle.std.specs.Prelude.{◌≡◌, ◌≤◌, ◌++◌, ℕ, drop, length, IfErr, IfOk, OnOk, Ok, Err};
ghost use Rattle.sp_tx.specs.Parts.{Transaction};
ghost use Rattle.sp_form.specs.Reading.{Answers, IsCause};
ghost use Rattle.sp_tx.specs.Reading.{read_at};
ghost use Rattle.sp_tx.specs.Spelling.{HasPartsFault, HasTxFault, IsMadeOf, IsTx, SpellsBetween};
ghost use Rattle.sp_tx.specs.declared.fault.TxFault.{TxFault};

use crate::check::check;
use crate::fault::{TxFault, TxReadFault};
use crate::list::{Inputs, Outputs};
use crate::reader::TxReader;
use std::alloc::Global;
use std::marker::Model;

/// A transfer: the outputs that it spends and those that it makes. Some bytes spell it.
///
/// In bytes: the number of inputs (1 byte), the inputs, the number of outputs (1 byte), the
/// outputs; at most 2,210 bytes. The table of the format, with each field's rule, stands in
/// docs/FORMATS.md under "Transactions".
#[derive(Debug, Drop)]
pub struct Tx {
    /// At most 16, their outpoints strictly ascending. A grant has none.
    pub inputs: Inputs,
    /// 1 to 16.
    pub outputs: Outputs,
}

impl Model for Tx {
    ghost use Rattle.sp_tx.specs.Parts.{Transaction};
    ghost use Rattle.sp_tx.specs.Spelling.{IsTx};

    ghost Value = { Transaction };

    ghost view = { λ t. record { inputs = t.inputs; outputs = t.outputs } };

    ghost invariant = { λ t. IsTx (record { inputs = t.inputs; outputs = t.outputs }) };
}

impl Tx {
    /// A transaction of these parts, the inputs sorted by outpoint, those of equal outpoints in
    /// their order. It takes about the time of a sort of the inputs, and time in proportion to the
    /// parts' bytes.
    ///
    /// # Errors
    ///
    /// The fault that a reader of its bytes would find first, counts and lengths taken as whole
    /// numbers: more than 16 inputs; two inputs of one outpoint; a preimage that is empty or longer
    /// than 64 bytes; no output or more than 16; an amount of 0; amounts that come to 2^63 or more.
    /// `Memory` where the sort found none; the parts are then dropped, as after each error.
    pub fn new(alloc: Global, inputs: Inputs, outputs: Outputs) -> Result<Tx, TxReadFault>
        // What is answered is so.
        ensures made { IfOk result (IsMadeOf inputs outputs) }
        ensures valid { IfOk result IsTx }
        ensures fault { IfErr result (IsCause (HasPartsFault inputs outputs)) }

        // What is so is answered, unless memory runs out.
        ensures only { (t : Transaction) → IsMadeOf inputs outputs t → IsTx t → Answers result (Ok t) }
        ensures only_fault { (fault : TxFault) → HasPartsFault inputs outputs fault → Answers result (Err fault) }
    {
        tx_of(alloc, inputs, outputs)
    }
}

/// The transaction of these parts, or their first fault.
fn tx_of(alloc: Global, inputs: Inputs, outputs: Outputs) -> Result<Tx, TxReadFault>
    ensures made { IfOk result (IsMadeOf inputs outputs) }
    ensures valid { IfOk result IsTx }
    ensures fault { IfErr result (IsCause (HasPartsFault inputs outputs)) }
{
    let inputs = inputs.sorted(alloc)?;
    match check(inputs.as_slice(), outputs.as_slice()) {
        Ok(()) => Ok(Tx { inputs, outputs }),
        Err(fault) => Err(TxReadFault::Fault(fault)),
    }
}

/// The transaction at a place, and the place behind it.
fn tx_at(alloc: Global, bytes: &[u8], at: usize) -> Result<(Tx, usize), TxReadFault>
    requires { at ≤ length bytes.now }
    ensures { Answers result (read_at bytes.now at) }
{
    let (_, from_here) = bytes.split_at(at);
    let mut reader = TxReader::new(from_here);
    let tx = reader.tx(alloc)?;
    Ok((tx, bytes.len() - reader.len()))
}

/// The transaction that the bytes from a place begin with, and the place behind it. It takes
/// time in proportion to the transaction's bytes.
///
/// # Errors
///
/// The first fault in the order of the format's table: bytes that end within a field or before it;
/// more than 16 inputs; an outpoint that isn't strictly above the one before; a preimage that is
/// empty or longer than 64 bytes; no output or more than 16; an amount of 0; amounts that come to
/// 2^63 or more. `Memory` where the lists found none.
pub fn read_tx(alloc: Global, bytes: &[u8], at: usize) -> Result<(Tx, usize), TxReadFault>
    requires { at ≤ length bytes.now }
    // What is answered stands there.
    ensures found { IfOk result (λ found. SpellsBetween bytes.now at found.1 found.0) }
    ensures fault { IfErr result (IsCause (HasTxFault (drop at bytes.now))) }

    // What stands there is answered, unless memory runs out.
    ensures only { (t : Transaction) (end : ℕ) → SpellsBetween bytes.now at end t
        → Answers result (Ok (t, end)) }
    ensures only_fault { (fault : TxFault) → HasTxFault (drop at bytes.now) fault
        → Answers result (Err fault) }
{
    tx_at(alloc, bytes, at)
}
