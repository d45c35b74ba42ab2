//! The fields that stand before a payload. Each is read whole and then judged, and where it breaks
//! its rule the feed is malformed at the place of the field's first byte.

ghost use Rattle.std.specs.Prelude.{◌≡◌, ◌≤◌, ◌<◌, IfOk, IsTrue};
ghost use Rattle.sp_feed.specs.Format.{bits_form, block_letter_form, kind_form, length_form, name_form};
ghost use Rattle.sp_feed.specs.Kinds.{allows};
ghost use Rattle.sp_feed.specs.Reads.{IsQuiet, moment, Reads};

use crate::fault::FeedFault;
use crate::fill::fill;
use crate::kind::Kind;
use crate::version::profile_of;
use sp_io::Source;
use sp_model::Profile;

/// Reads the eight bytes at the start, and answers the profile that they name.
pub(crate) fn read_name<S: Source>(
    source: &mut S,
    limit: u32,
    taken: &mut u32,
) -> Result<Profile, FeedFault>
    requires { taken.old ≤ limit }
    ensures reads { Reads limit
        (moment (S.left source.old) (S.faults source.old) taken.old)
        (moment (S.left source.new) (S.faults source.new) taken.new)
        (λ profile. profile) name_form result }
    ensures quiet { IsQuiet (S.faults source.old) (S.faults source.new) result }
    ensures progress { IfOk result (λ _. taken.old < taken.new) }
    ensures unasked { taken.old ≡ limit → source.new ≡ source.old }
{
    let start = *taken;
    let mut bytes = [0; 8];
    fill(source, &mut bytes, limit, taken)?;
    match profile_of(bytes) {
        Some(profile) => Ok(profile),
        None => Err(FeedFault::Malformed { at: start }),
    }
}

/// Reads the bits of work.
pub(crate) fn read_bits<S: Source>(
    source: &mut S,
    limit: u32,
    taken: &mut u32,
) -> Result<u8, FeedFault>
    requires { taken.old ≤ limit }
    ensures reads { Reads limit
        (moment (S.left source.old) (S.faults source.old) taken.old)
        (moment (S.left source.new) (S.faults source.new) taken.new)
        (λ bits. bits) bits_form result }
    ensures quiet { IsQuiet (S.faults source.old) (S.faults source.new) result }
    ensures small { IfOk result (λ bits. bits ≤ 64) }
{
    let start = *taken;
    let mut bytes = [0; 1];
    fill(source, &mut bytes, limit, taken)?;
    if bytes[0] <= 64 {
        Ok(bytes[0])
    } else {
        Err(FeedFault::Malformed { at: start })
    }
}

/// Reads a kind.
pub(crate) fn read_kind<S: Source>(
    source: &mut S,
    limit: u32,
    taken: &mut u32,
) -> Result<Kind, FeedFault>
    requires { taken.old ≤ limit }
    ensures reads { Reads limit
        (moment (S.left source.old) (S.faults source.old) taken.old)
        (moment (S.left source.new) (S.faults source.new) taken.new)
        (λ kind. kind) kind_form result }
    ensures quiet { IsQuiet (S.faults source.old) (S.faults source.new) result }
    ensures progress { IfOk result (λ _. taken.old < taken.new) }
    ensures unasked { taken.old ≡ limit → source.new ≡ source.old }
{
    let start = *taken;
    let mut bytes = [0; 1];
    fill(source, &mut bytes, limit, taken)?;
    match Kind::of(bytes[0]) {
        Some(kind) => Ok(kind),
        None => Err(FeedFault::Malformed { at: start }),
    }
}

/// Reads the letter of a block.
pub(crate) fn read_block_letter<S: Source>(
    source: &mut S,
    limit: u32,
    taken: &mut u32,
) -> Result<u8, FeedFault>
    requires { taken.old ≤ limit }
    ensures reads { Reads limit
        (moment (S.left source.old) (S.faults source.old) taken.old)
        (moment (S.left source.new) (S.faults source.new) taken.new)
        (λ letter. letter) block_letter_form result }
    ensures quiet { IsQuiet (S.faults source.old) (S.faults source.new) result }
{
    let start = *taken;
    let mut bytes = [0; 1];
    fill(source, &mut bytes, limit, taken)?;
    if bytes[0] == b'B' {
        Ok(bytes[0])
    } else {
        Err(FeedFault::Malformed { at: start })
    }
}

/// Reads a length that a payload of this kind may have.
pub(crate) fn read_length<S: Source>(
    source: &mut S,
    kind: Kind,
    limit: u32,
    taken: &mut u32,
) -> Result<u32, FeedFault>
    requires { taken.old ≤ limit }
    ensures reads { Reads limit
        (moment (S.left source.old) (S.faults source.old) taken.old)
        (moment (S.left source.new) (S.faults source.new) taken.new)
        (λ n. n) (length_form kind) result }
    ensures quiet { IsQuiet (S.faults source.old) (S.faults source.new) result }
    ensures fits { IfOk result (λ n. n ≤ 65537) }
    ensures allowed { IfOk result (λ n. IsTrue (allows kind n)) }
{
    let start = *taken;
    let mut bytes = [0; 4];
    fill(source, &mut bytes, limit, taken)?;
    let length = u32::from_le_bytes(bytes);
    if kind.allows(length) {
        Ok(length)
    } else {
        Err(FeedFault::Malformed { at: start })
    }
}
