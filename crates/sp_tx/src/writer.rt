//! Writing a transaction, and its id. The bytes are counted first and room is made for them all, so
//! that nothing fails once a byte is written.

ghost use Rattle.std.specs.Prelude.{◌≡◌, ◌≤◌, ◌+◌, ◌∷◌, ◌++◌, All, IfOk, OnErr, OnOk, length, vec_capacity, vec_len};
ghost use Rattle.std.specs.List.{flat_map};
ghost use Rattle.sp_tx.specs.Spelling.{input_text, IsTx, output_text, spelling, SpellsTx};
ghost use Rattle.sp_tx.specs.Spending.{id_of};

use crate::parts::{Input, Output};
use crate::tx::Tx;
use sp_ids::{Memory, TxId};
use std::alloc::Global;

// How many bytes the inputs have.
fn inputs_len(inputs: &[Input]) -> usize
    requires few { length inputs.now ≤ 16 }
    requires short { All (λ input. length input.preimage ≤ 64) inputs.now }
    ensures len { result ≡ length (flat_map input_text inputs.now) }
    ensures bound { result ≤ 1568 }
{
    let mut len = 0;
    'inputs: for input in inputs {
        len += 34 + input.preimage.as_slice().len();
    }
    len
}

/// How many bytes a transaction has, in the layout that `Tx` names.
pub fn written_len(tx: &Tx) -> usize
    ensures len { result ≡ length (spelling tx.now) }
    ensures bound { result ≤ 2210 }
    ensures valid { IsTx tx.now }
{
    2 + inputs_len(tx.inputs.as_slice()) + 40 * tx.outputs.as_slice().len()
}

fn put_bytes(out: &mut Vec<u8>, bytes: &[u8])
    requires { vec_len out.old + length bytes.now ≤ vec_capacity out.old }
    ensures items { out.new.items ≡ out.old.items ++ bytes.now }
    ensures len { vec_len out.new ≡ vec_len out.old + length bytes.now }
    ensures room { vec_capacity out.old ≤ vec_capacity out.new }
{
    match out.extend_from_slice(bytes) {
        Ok(()) => {}
        // There is room for them.
        Err(_) => unreachable!(),
    }
}

fn put_input(out: &mut Vec<u8>, input: &Input)
    requires short { length input.now.preimage ≤ 64 }
    requires room { vec_len out.old + length (input_text input.now) ≤ vec_capacity out.old }
    ensures items { out.new.items ≡ out.old.items ++ input_text input.now }
    ensures len { vec_len out.new ≡ vec_len out.old + length (input_text input.now) }
    ensures room { vec_capacity out.old ≤ vec_capacity out.new }
{
    let preimage = input.preimage.as_slice();
    put_bytes(out, input.from.tx.as_bytes());
    out.push_reserved(input.from.index);
    out.push_reserved(preimage.len() as u8);
    put_bytes(out, preimage);
}

fn put_inputs(out: &mut Vec<u8>, inputs: &[Input])
    requires few { length inputs.now ≤ 16 }
    requires short { All (λ input. length input.preimage ≤ 64) inputs.now }
    requires room { vec_len out.old + (1 + length (flat_map input_text inputs.now)) ≤ vec_capacity out.old }
    ensures items { out.new.items ≡ out.old.items ++ length inputs.now ∷ flat_map input_text inputs.now }
    ensures len { vec_len out.new ≡ vec_len out.old + (1 + length (flat_map input_text inputs.now)) }
    ensures room { vec_capacity out.old ≤ vec_capacity out.new }
{
    out.push_reserved(inputs.len() as u8);
    'inputs: for input in inputs {
        put_input(out, input);
    }
}

fn put_output(out: &mut Vec<u8>, output: &Output)
    requires { vec_len out.old + length (output_text output.now) ≤ vec_capacity out.old }
    ensures items { out.new.items ≡ out.old.items ++ output_text output.now }
    ensures len { vec_len out.new ≡ vec_len out.old + length (output_text output.now) }
    ensures room { vec_capacity out.old ≤ vec_capacity out.new }
{
    put_bytes(out, &output.amount.to_le_bytes());
    put_bytes(out, output.lock.as_bytes());
}

fn put_outputs(out: &mut Vec<u8>, outputs: &[Output])
    requires few { length outputs.now ≤ 16 }
    requires room { vec_len out.old + (1 + length (flat_map output_text outputs.now)) ≤ vec_capacity out.old }
    ensures items { out.new.items ≡ out.old.items ++ length outputs.now ∷ flat_map output_text outputs.now }
{
    out.push_reserved(outputs.len() as u8);
    'outputs: for output in outputs {
        put_output(out, output);
    }
}

fn put_tx(out: &mut Vec<u8>, tx: &Tx)
    requires { vec_len out.old + length (spelling tx.now) ≤ vec_capacity out.old }
    ensures { out.new.items ≡ out.old.items ++ spelling tx.now }
{
    put_inputs(out, tx.inputs.as_slice());
    put_outputs(out, tx.outputs.as_slice());
}

/// Appends the bytes of a transaction, at most 2,210 of them, in the layout that `Tx` names. Room
/// is made for all of them first, so after `Memory` nothing was appended. It takes time in
/// proportion to these bytes.
pub fn write_tx(tx: &Tx, out: &mut Vec<u8>) -> Result<(), Memory>
    ensures ok { OnOk result (out.new.items ≡ out.old.items ++ spelling tx.now) }
    ensures spells { SpellsTx (spelling tx.now) tx.now }
    ensures err { OnErr result (out.new.items ≡ out.old.items) }
{
    out.reserve(written_len(tx))?;
    put_tx(out, tx);
    Ok(())
}

/// The id of a transaction, the SHA-256 of its bytes. They are written for it, into memory of just
/// their length. It takes time in proportion to them.
#[tactic(auto, unfolding(crate::specs::Spending::id_of))]
pub fn id(alloc: Global, tx: &Tx) -> Result<TxId, Memory>
    ensures { IfOk result (λ id. id ≡ id_of tx.now) }
{
    let mut text = Vec::with_capacity(alloc, written_len(tx))?;
    put_tx(&mut text, tx);
    Ok(TxId::of(&text))
}
