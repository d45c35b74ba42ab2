//! A frame and the head, field by field, with the payload at the front of a buffer that is lent.

ghost use Rattle.std.specs.Prelude.{◌≡◌, ◌≤◌, ◌<◌, IfOk, IsTrue, length, take};
ghost use Rattle.sp_feed.specs.Calls.{GivesHead, GivesNext};
ghost use Rattle.sp_feed.specs.Format.{back_form, frame_form, front_form, head_form};
ghost use Rattle.sp_feed.specs.Kinds.{allows, said};
ghost use Rattle.sp_feed.specs.Reader.{head_in};
ghost use Rattle.sp_feed.specs.Reads.{IsQuiet, IsQuietHead, moment, Reads, ReadsFront};

use crate::fault::{FeedFault, HeadFault};
use crate::field::{read_bits, read_block_letter, read_kind, read_length, read_name};
use crate::fill::fill;
use crate::head::FeedHead;
use crate::kind::Kind;
use sp_block::{ReadBlockFault, read_block};
use sp_io::Source;
use sp_model::Profile;
use std::alloc::Global;

/// The bytes of the longest payload. A block has one byte less, so that one which is too long can
/// still be framed and refused as a block.
pub(crate) const LONGEST: usize = 65_537;

/// Reads a frame, and answers its kind and its payload's length.
fn read_frame<S: Source>(
    source: &mut S,
    payload: &mut [u8],
    limit: u32,
    taken: &mut u32,
) -> Result<(Kind, usize), FeedFault>
    requires limit { taken.old ≤ limit }
    requires room { length payload.old ≡ LONGEST }
    ensures reads { Reads limit
        (moment (S.left source.old) (S.faults source.old) taken.old)
        (moment (S.left source.new) (S.faults source.new) taken.new)
        (λ found. said found.0 (take found.1 payload.new)) frame_form result }
    ensures quiet { IsQuiet (S.faults source.old) (S.faults source.new) result }
    ensures fits { IfOk result (λ found. found.1 ≤ LONGEST) }
    ensures allowed { IfOk result (λ found. IsTrue (allows found.0 found.1)) }
    ensures progress { IfOk result (λ _. taken.old < taken.new) }
    ensures unasked { taken.old ≡ limit → source.new ≡ source.old }
{
    let kind = read_kind(source, limit, taken)?;
    let length = read_length(source, kind, limit, taken)? as usize;
    fill(source, &mut payload[..length], limit, taken)?;
    Ok((kind, length))
}

/// Reads the next frame, and answers its kind and its payload's length.
pub(crate) fn next_frame<S: Source>(
    source: &mut S,
    payload: &mut [u8],
    limit: u32,
    taken: &mut u32,
) -> Result<(Kind, usize), FeedFault>
    requires limit { taken.old ≤ limit }
    requires room { length payload.old ≡ LONGEST }
    ensures gives { GivesNext limit
        (moment (S.left source.old) (S.faults source.old) taken.old)
        (moment (S.left source.new) (S.faults source.new) taken.new)
        (λ found. said found.0 (take found.1 payload.new)) result }
    ensures quiet { IsQuiet (S.faults source.old) (S.faults source.new) result }
    ensures fits { IfOk result (λ found. found.1 ≤ LONGEST) }
    ensures allowed { IfOk result (λ found. IsTrue (allows found.0 found.1)) }
    ensures progress { IfOk result (λ _. taken.old < taken.new) }
    ensures unasked { taken.old ≡ limit → source.new ≡ source.old }
{
    read_frame(source, payload, limit, taken)
}

/// Reads what stands before the genesis block, and answers the profile, the bits and how many bytes
/// the block has.
fn read_front<S: Source>(
    source: &mut S,
    limit: u32,
    taken: &mut u32,
) -> Result<(Profile, (u8, usize)), FeedFault>
    requires { taken.old ≤ limit }
    ensures reads { Reads limit
        (moment (S.left source.old) (S.faults source.old) taken.old)
        (moment (S.left source.new) (S.faults source.new) taken.new)
        (λ front. front) front_form result }
    ensures quiet { IsQuiet (S.faults source.old) (S.faults source.new) result }
    ensures small { IfOk result (λ front. front.1.0 ≤ 64) }
    ensures fits { IfOk result (λ front. front.1.1 ≤ LONGEST) }
    ensures progress { IfOk result (λ _. taken.old < taken.new) }
    ensures unasked { taken.old ≡ limit → source.new ≡ source.old }
{
    let profile = read_name(source, limit, taken)?;
    let bits = read_bits(source, limit, taken)?;
    read_block_letter(source, limit, taken)?;
    let length = read_length(source, Kind::Block, limit, taken)? as usize;
    Ok((profile, (bits, length)))
}

/// Reads the genesis block, whose bytes fill the buffer, and makes the head of it.
fn read_genesis<S: Source>(
    alloc: Global,
    profile: Profile,
    bits: u8,
    source: &mut S,
    payload: &mut [u8],
    limit: u32,
    taken: &mut u32,
) -> Result<FeedHead, HeadFault>
    requires limit { taken.old ≤ limit }
    requires small { bits ≤ 64 }
    ensures reads { ReadsFront limit
        (moment (S.left source.old) (S.faults source.old) taken.old)
        (moment (S.left source.new) (S.faults source.new) taken.new)
        head_in (back_form profile bits (length payload.old)) result }
    ensures quiet { IsQuietHead (S.faults source.old) (S.faults source.new) result }
{
    let start = *taken;
    fill(source, payload, limit, taken)?;
    match read_block(alloc, payload, true) {
        Ok(genesis) => Ok(FeedHead {
            profile,
            bits,
            genesis,
        }),
        Err(ReadBlockFault::Fault(_)) => Err(HeadFault::Feed(FeedFault::Malformed { at: start })),
        Err(ReadBlockFault::Memory) => Err(HeadFault::Memory),
    }
}

/// Reads the head.
fn read_head<S: Source>(
    alloc: Global,
    source: &mut S,
    payload: &mut [u8],
    limit: u32,
    taken: &mut u32,
) -> Result<FeedHead, HeadFault>
    requires limit { taken.old ≤ limit }
    requires room { length payload.old ≡ LONGEST }
    ensures reads { ReadsFront limit
        (moment (S.left source.old) (S.faults source.old) taken.old)
        (moment (S.left source.new) (S.faults source.new) taken.new)
        head_in head_form result }
    ensures quiet { IsQuietHead (S.faults source.old) (S.faults source.new) result }
    ensures unasked { taken.old ≡ limit → source.new ≡ source.old }
{
    let (profile, (bits, length)) = read_front(source, limit, taken)?;
    read_genesis(
        alloc,
        profile,
        bits,
        source,
        &mut payload[..length],
        limit,
        taken,
    )
}

/// Reads the head at the start of a feed.
pub(crate) fn first_head<S: Source>(
    alloc: Global,
    source: &mut S,
    payload: &mut [u8],
    limit: u32,
    taken: &mut u32,
) -> Result<FeedHead, HeadFault>
    requires start { taken.old ≡ 0 }
    requires room { length payload.old ≡ LONGEST }
    ensures gives { GivesHead limit
        (moment (S.left source.old) (S.faults source.old) taken.old)
        (moment (S.left source.new) (S.faults source.new) taken.new)
        head_in result }
    ensures quiet { IsQuietHead (S.faults source.old) (S.faults source.new) result }
    ensures unasked { taken.old ≡ limit → source.new ≡ source.old }
{
    read_head(alloc, source, payload, limit, taken)
}
