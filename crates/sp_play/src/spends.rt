//! What the SPENDs of a line say, judged from left to right.

ghost use Rattle.std.specs.Prelude.{◌≡◌, ◌≤◌, ◌<◌, ◌==◌, ◌^◌, ℕ, [], All, drop, false, IfErr, IfOk, IfSome, length, position, slice_index_or};
ghost use Rattle.std.specs.Option.{option_copied};
ghost use Rattle.sp_play.specs.Judging as meant;
ghost use Rattle.sp_play.specs.Known.{Entry, locked_of, thing_at};
ghost use Rattle.sp_play.specs.Numbers.{number_in};
ghost use Rattle.sp_play.specs.Spent.{AreApart, IsJudged};
ghost use Rattle.sp_play.specs.Told.{Answers};

use crate::entries::Entries;
use crate::found::Found;
use crate::judging::lock_word;
use crate::lookups::known_tx;
use crate::numbers;
use crate::out::Out;
use crate::pieces::Spend;
use crate::thing::NamedTx;
use crate::why::{LineError, Why};
use sp_ids::Outpoint;
use sp_names::Name;
use sp_tx::{Bytes, Input, Inputs};
use std::alloc::Global;

/// An output of a transaction.
fn out_at(named: &NamedTx, index: u64) -> Result<Out, LineError>
    requires { index ≤ 255 }
    ensures value { Answers result (meant.out_at named.now index) }
    ensures id { IfOk result (λ out. out.from.tx < 2 ^ 256) }
{
    let place = index as usize;
    if named.output_count() <= place {
        return Err(LineError::Fault(Why::Unknown));
    }
    let from = Outpoint {
        tx: named.id(),
        index: index as u8,
    };
    Ok(Out {
        from,
        word: Name::of(named.word_at(place).as_slice()),
    })
}

/// An INDEX. One that isn't well formed names nothing.
fn index_of(word: &[u8]) -> Result<u64, LineError>
    ensures value { Answers result (meant.index_of (number_in 0 255 word.now)) }
    ensures bound { IfOk result (λ index. index ≤ 255) }
{
    match numbers::number_in(0, 255, word) {
        Ok(index) => Ok(index),
        Err(LineError::Fault(_)) => Err(LineError::Fault(Why::Unknown)),
        Err(LineError::Memory) => Err(LineError::Memory),
    }
}

/// The place of the first byte `.`.
fn dot_at(word: &[u8]) -> Option<usize>
    ensures value { result ≡ position (λ byte. byte == 46) word.now }
    ensures within { IfSome result (λ place. place < length word.now) }
{
    word.iter().position(|byte| *byte == b'.')
}

/// The output that a word `NAME.INDEX` names.
#[tactic(auto, unfolding(crate::specs::Judging::out_of))]
fn out_of(entries: &Entries, word: &[u8]) -> Result<Out, LineError>
    ensures value { Answers result (meant.out_of entries.now word.now) }
    ensures id { IfOk result (λ out. out.from.tx < 2 ^ 256) }
{
    let Some(place) = dot_at(word) else {
        return Err(LineError::Fault(Why::Unknown));
    };
    let (name, _) = word.split_at(place);
    let (_, behind) = word.split_at(place + 1);
    let tx = known_tx(entries, name)?;
    let index = index_of(behind)?;
    out_at(entries.tx_at(tx), index)
}

/// A copy of a name's bytes.
fn bytes_of(alloc: Global, name: &Name) -> Result<Bytes, LineError>
    ensures value { IfOk result (λ bytes. bytes ≡ name.now) }
    ensures some { IfOk result (λ bytes. 1 ≤ length bytes) }
    ensures short { IfOk result (λ bytes. length bytes ≤ 64) }
    ensures err { IfErr result (λ e. e ≡ LineError.Memory) }
{
    Ok(Bytes::of(Vec::from_slice(alloc, name.as_slice())?))
}

/// The preimage: the word behind `with`, else the word that locks the output.
fn preimage_of(alloc: Global, opener: Option<&[u8]>, word: &Name) -> Result<Bytes, LineError>
    ensures value { Answers result (meant.preimage_of (option_copied opener.entry) word.now) }
    ensures some { IfOk result (λ preimage. 1 ≤ length preimage) }
    ensures short { IfOk result (λ preimage. length preimage ≤ 64) }
{
    match opener {
        None => bytes_of(alloc, word),
        Some(opener) => bytes_of(alloc, &lock_word(opener)?),
    }
}

/// The input that a SPEND says, behind those judged before.
#[tactic(auto, unfolding(crate::specs::Judging::input_of))]
fn input_of(
    alloc: Global,
    entries: &Entries,
    found: &Found,
    spend: &Spend,
) -> Result<Input, LineError>
    ensures value { Answers result (meant.input_of entries.now found.now spend.now) }
    ensures apart { IfOk result (λ input. meant.is_spent found.now input.from ≡ false) }
    ensures judged { IfOk result IsJudged }
{
    let out = out_of(entries, spend.out())?;
    if found.is_spent(&out.from) {
        return Err(LineError::Fault(Why::Repeat));
    }
    let preimage = preimage_of(alloc, spend.opener(), &out.word)?;
    Ok(Input {
        from: out.from,
        preimage,
    })
}

/// What SPENDs say. Each is looked up in an ordered set of those before it.
#[tactic(auto, unfolding(crate::specs::Judging::inputs_after))]
pub(crate) fn inputs_all(
    alloc: Global,
    entries: &Entries,
    spends: &[Spend],
) -> Result<Inputs, LineError>
    ensures value { Answers result (meant.inputs_after entries.now [] spends.now) }
    ensures many { IfOk result (λ inputs. length inputs ≡ length spends.now) }
    ensures apart { IfOk result AreApart }
    ensures judged { IfOk result (All IsJudged) }
{
    let mut found = Found::new(alloc);
    for spend in spends {
        let input = input_of(alloc, entries, &found, spend)?;
        found.push(input)?;
    }
    Ok(found.into_inputs())
}
