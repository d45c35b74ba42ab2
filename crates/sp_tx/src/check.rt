//! What a reader of a transaction's bytes would find in its parts, counts and lengths as whole
//! numbers.

ghost use Rattle.std.specs.Prelude.{◌≡◌, ◌<◌, ◌^◌, None, length};
ghost use Rattle.std.specs.List.{flat_map};
ghost use Rattle.sp_form.specs.Turns.{InTurn};
ghost use Rattle.sp_tx.specs.Format.{input_form, inputs_form, last_outpoint, output_form, outputs_form, sum_so_far, tx_form};
ghost use Rattle.sp_tx.specs.Judging.{Judges};
ghost use Rattle.sp_tx.specs.Parts.{of_parts};
ghost use Rattle.sp_tx.specs.Spelling.{IsInput, IsOutput, IsTx, input_text, output_text, spelling};

use crate::fault::TxFault;
use crate::parts::{Input, Output};
use crate::reader::{AMOUNT_LIMIT, is_next};
use sp_ids::Outpoint;

fn check_input(before: Option<Outpoint>, input: &Input) -> Result<(), TxFault>
    ensures { Judges result (IsInput before input.now) (input_form before) (input_text input.now) }
{
    let _id = input.from.tx.as_bytes();
    let size = input.preimage.as_slice().len();
    if !is_next(before, &input.from) {
        return Err(TxFault::InputOrder);
    }
    if size < 1 || 64 < size {
        return Err(TxFault::PreimageLength);
    }
    Ok(())
}

fn check_inputs(inputs: &[Input]) -> Result<(), TxFault>
    ensures { Judges result (InTurn IsInput last_outpoint None inputs.now)
        (inputs_form (length inputs.now)) (flat_map input_text inputs.now) }
{
    let mut before = None;
    'inputs: for input in inputs {
        check_input(before, input)?;
        before = Some(input.from);
    }
    Ok(())
}

fn check_output(before: u64, output: &Output) -> Result<(), TxFault>
    requires { before < 2 ^ 63 }
    ensures { Judges result (IsOutput before output.now) (output_form before) (output_text output.now) }
{
    let _lock = output.lock.as_bytes();
    let amount = output.amount;
    if amount == 0 {
        return Err(TxFault::Amount);
    }
    if amount >= AMOUNT_LIMIT - before {
        return Err(TxFault::Sum);
    }
    Ok(())
}

fn check_outputs(outputs: &[Output]) -> Result<(), TxFault>
    ensures { Judges result (InTurn IsOutput sum_so_far 0 outputs.now)
        (outputs_form (length outputs.now)) (flat_map output_text outputs.now) }
{
    let mut sum = 0;
    'outputs: for output in outputs {
        check_output(sum, output)?;
        sum += output.amount;
    }
    Ok(())
}

/// The first fault of the parts, if they have one.
pub(crate) fn check(inputs: &[Input], outputs: &[Output]) -> Result<(), TxFault>
    ensures { Judges result (IsTx (of_parts inputs.now outputs.now))
        tx_form (spelling (of_parts inputs.now outputs.now)) }
{
    if 16 < inputs.len() {
        return Err(TxFault::InputCount);
    }
    check_inputs(inputs)?;
    let count = outputs.len();
    if count < 1 || 16 < count {
        return Err(TxFault::OutputCount);
    }
    check_outputs(outputs)
}
