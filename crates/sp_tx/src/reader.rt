//! Reading a transaction field by field.

ghost use Rattle.std.specs.Prelude.{◌≡◌, ◌<◌, ◌≤◌, ◌^◌, ◌+◌, IfOk, length};
ghost use Rattle.sp_tx.specs.Parts as next;
ghost use Rattle.sp_tx.specs.Format as format;
ghost use Rattle.sp_tx.specs.Format.{amount_form, input_form, inputs_form, lock_form, outpoint_form, output_form, outputs_form, preimage_form};
ghost use Rattle.sp_tx.specs.Reading.{tx_steps};
ghost use Rattle.sp_tx.specs.declared.fault.TxFault.TheVariants.{Short};
ghost use Rattle.sp_form.specs.Bytes.{IsBytes};
ghost use Rattle.sp_form.specs.Reading.{Gives, read};
ghost use Rattle.sp_form.specs.Values.{bytes_form, count_form};
ghost use Rattle.sp_ids.specs.Key.{number_of};

use crate::fault::{TxFault, TxReadFault};
use crate::list::{Bytes, Inputs, Outputs};
use crate::parts::{Input, Output};
use crate::tx::Tx;
use sp_form::{Fields, array_of};
use sp_ids::{Lock, Outpoint, TxId};
use std::alloc::Global;
use std::marker::Model;

/// The amounts of a transaction come to less than this.
pub(crate) const AMOUNT_LIMIT: u64 = 1 << 63;

/// The outpoint that a field holds.
fn outpoint_of(field: &[u8]) -> Outpoint
    requires { length field.now ≡ 33 }
    ensures { result ≡ format.outpoint_of field.now }
{
    let (id, _) = field.split_at(32);
    Outpoint {
        tx: TxId::from_bytes(array_of(id)),
        index: field[32],
    }
}

/// Whether an outpoint is strictly above the one before, where there is one.
pub(crate) fn is_next(before: Option<Outpoint>, outpoint: &Outpoint) -> bool
    ensures { result ≡ next.is_next before outpoint.now }
{
    match before {
        None => true,
        Some(before) => before.cmp(outpoint).is_lt(),
    }
}

/// A transaction's bytes, read field by field.
#[derive(Drop)]
pub(crate) struct TxReader<'a> {
    fields: Fields<'a>,
}

impl<'a> Model for TxReader<'a> {
    ghost use Rattle.std.specs.Prelude.{List, ℕ};

    ghost Value = { List ℕ };

    ghost view = { λ r. r.fields };
}

impl<'a> TxReader<'a> {
    /// A reader of all of these bytes.
    pub(crate) fn new(bytes: &'a [u8]) -> TxReader<'a>
        ensures all { result ≡ bytes.now }
        ensures bytes { IsBytes result }
    {
        TxReader {
            fields: Fields::of(bytes),
        }
    }

    /// The number of bytes that are left.
    pub(crate) fn len(&self) -> usize
        ensures { result ≡ length self.now }
    {
        self.fields.len()
    }

    /// The next so many bytes.
    #[tactic(auto, unfolding(sp_form::specs::Reading::read))]
    fn field(&mut self, width: usize) -> Result<&'a [u8], TxReadFault>
        ensures size { IfOk result (λ field. length field.now ≡ width) }
        ensures read { Gives (λ field. (field.now, self.new)) result (read (bytes_form width Short) self.old) }
    {
        match self.fields.take(width) {
            Some(field) => Ok(field),
            None => Err(TxReadFault::Fault(TxFault::Short)),
        }
    }

    /// One byte, a number within these limits.
    #[tactic(auto, unfolding(sp_form::specs::Reading::read))]
    fn count(&mut self, least: u8, most: u8, fault: TxFault) -> Result<u8, TxReadFault>
        ensures { Gives (λ number. (number, self.new)) result (read (count_form Short least most fault) self.old) }
    {
        let field = self.field(1)?;
        let number = field[0];
        if number < least || most < number {
            return Err(TxReadFault::Fault(fault));
        }
        Ok(number)
    }

    /// An id and an index, strictly above the outpoint before.
    #[tactic(auto, unfolding(sp_form::specs::Reading::read))]
    fn outpoint(&mut self, before: Option<Outpoint>) -> Result<Outpoint, TxReadFault>
        ensures { Gives (λ outpoint. (outpoint, self.new)) result (read (outpoint_form before) self.old) }
    {
        let field = self.field(33)?;
        let outpoint = outpoint_of(field);
        if !is_next(before, &outpoint) {
            return Err(TxReadFault::Fault(TxFault::InputOrder));
        }
        Ok(outpoint)
    }

    /// A length of 1 to 64, and that many bytes.
    #[tactic(auto, using(sp_form::proofs::Steps::steps), unfolding(crate::specs::Format::preimage_form))]
    fn preimage(&mut self, alloc: Global) -> Result<Bytes, TxReadFault>
        ensures { Gives (λ bytes. (bytes, self.new)) result (read preimage_form self.old) }
    {
        let size = self.count(1, 64, TxFault::PreimageLength)?;
        let bytes = self.field(size as usize)?;
        Ok(Bytes::of(Vec::from_slice(alloc, bytes)?))
    }

    /// At least 1, and below the limit together with the amounts before it.
    #[tactic(auto, unfolding(sp_form::specs::Reading::read))]
    fn amount(&mut self, before: u64) -> Result<u64, TxReadFault>
        requires { before < 2 ^ 63 }
        ensures fits { IfOk result (λ amount. before + amount < 2 ^ 63) }
        ensures read { Gives (λ amount. (amount, self.new)) result (read (amount_form before) self.old) }
    {
        let field = self.field(8)?;
        let amount = u64::from_le_bytes(array_of(field));
        if amount == 0 {
            return Err(TxReadFault::Fault(TxFault::Amount));
        }
        if amount >= AMOUNT_LIMIT - before {
            return Err(TxReadFault::Fault(TxFault::Sum));
        }
        Ok(amount)
    }

    /// The 32 bytes of a lock.
    #[tactic(auto, unfolding(sp_form::specs::Reading::read))]
    fn lock(&mut self) -> Result<Lock, TxReadFault>
        ensures { Gives (λ lock. (lock, self.new)) result (read lock_form self.old) }
    {
        let field = self.field(32)?;
        Ok(Lock::from_bytes(array_of(field)))
    }

    /// One input, its outpoint strictly above the one before.
    #[tactic(auto, using(sp_form::proofs::Steps::steps), unfolding(crate::specs::Format::input_form))]
    fn input(&mut self, alloc: Global, before: Option<Outpoint>) -> Result<Input, TxReadFault>
        ensures { Gives (λ input. (input, self.new)) result (read (input_form before) self.old) }
    {
        let from = self.outpoint(before)?;
        let preimage = self.preimage(alloc)?;
        Ok(Input { from, preimage })
    }

    /// So many inputs, their outpoints ascending.
    fn inputs(&mut self, alloc: Global, count: u8) -> Result<Inputs, TxReadFault>
        ensures { Gives (λ inputs. (inputs, self.new)) result (read (inputs_form count) self.old) }
    {
        let mut inputs = Vec::new(alloc);
        let mut before = None;
        'inputs: for _ in 0..count {
            let input = self.input(alloc, before)?;
            before = Some(input.from);
            inputs.push(input)?;
        }
        Ok(Inputs::of(inputs))
    }

    /// One output, the amounts before it coming to `before`.
    #[tactic(auto, using(sp_form::proofs::Steps::steps), unfolding(crate::specs::Format::output_form))]
    fn output(&mut self, before: u64) -> Result<Output, TxReadFault>
        requires { before < 2 ^ 63 }
        ensures fits { IfOk result (λ output. before + output.amount < 2 ^ 63) }
        ensures read { Gives (λ output. (output, self.new)) result (read (output_form before) self.old) }
    {
        let amount = self.amount(before)?;
        let lock = self.lock()?;
        Ok(Output { amount, lock })
    }

    /// So many outputs, their amounts within the limit.
    fn outputs(&mut self, alloc: Global, count: u8) -> Result<Outputs, TxReadFault>
        ensures { Gives (λ outputs. (outputs, self.new)) result (read (outputs_form count) self.old) }
    {
        let mut outputs = Vec::new(alloc);
        let mut sum = 0;
        'outputs: for _ in 0..count {
            let output = self.output(sum)?;
            sum += output.amount;
            outputs.push(output)?;
        }
        Ok(Outputs::of(outputs))
    }

    /// A transaction.
    pub(crate) fn tx(&mut self, alloc: Global) -> Result<Tx, TxReadFault>
        requires { IsBytes self.old }
        ensures { Gives (λ tx. (tx, self.new)) result (tx_steps self.old) }
    {
        let count = self.count(0, 16, TxFault::InputCount)?;
        let inputs = self.inputs(alloc, count)?;
        let count = self.count(1, 16, TxFault::OutputCount)?;
        let outputs = self.outputs(alloc, count)?;
        Ok(Tx { inputs, outputs })
    }
}
