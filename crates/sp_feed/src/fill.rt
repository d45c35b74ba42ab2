//! The one place where bytes are asked of a source.

ghost use Rattle.std.specs.Prelude.{◌≡◌, ◌≤◌};
ghost use Rattle.sp_feed.specs.Reads.{moment, Fills, IsQuiet};

use crate::fault::FeedFault;
use sp_io::Source;

/// Fills `out` from the source and counts the bytes taken. No byte behind the limit is taken.
///
/// # Errors
///
/// `ReadFault` where a call of the source fails, `Truncated` at the end of the source, and `TooLong`
/// where `out` has room for more than the limit allows and the source gave all up to it.
pub(crate) fn fill<S: Source>(
    source: &mut S,
    out: &mut [u8],
    limit: u32,
    taken: &mut u32,
) -> Result<(), FeedFault>
    requires { taken.old ≤ limit }
    ensures fills { Fills limit
        (moment (S.left source.old) (S.faults source.old) taken.old)
        (moment (S.left source.new) (S.faults source.new) taken.new)
        out.new result }
    ensures quiet { IsQuiet (S.faults source.old) (S.faults source.new) result }
    ensures unasked { taken.old ≡ limit → source.new ≡ source.old }
{
    let room = (limit - *taken) as usize;
    let wanted = out.len().min(room);
    let mut filled = 0;
    'pieces: while filled < wanted {
        let Ok(count) = source.read(&mut out[filled..wanted]) else {
            return Err(FeedFault::ReadFault);
        };
        if count == 0 {
            return Err(FeedFault::Truncated { at: *taken });
        }
        filled += count;
        *taken += count as u32;
    }
    if wanted < out.len() {
        return Err(FeedFault::TooLong { taken: limit });
    }
    Ok(())
}
