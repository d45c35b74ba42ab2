//! Calls repeated until all is done: a buffer read full, and a piece written whole. They stand
//! apart from the traits, because they hold for every source and every sink.

ghost use Rattle.std.specs.Prelude.{◌≡◌, ◌<◌, length, take, IsOk, IfOk, OnOk, OnErr, Ok};
ghost use Rattle.std.specs.Io.{ReadsAtMost};
ghost use Rattle.std.specs.Io.KnownBytes.{Appends, Consumes, IsAtEnd};
ghost use Rattle.sp_io.specs.Causes.{HasCause};
ghost use Rattle.sp_io.specs.Whole.{AppendsBelow, AppendsFront, ConsumesBelow};

use crate::failed::Failed;
use crate::sink::Sink;
use crate::source::Source;

/// Reads until `out` is full or the source ends, and answers the number of bytes read.
///
/// # Errors
///
/// `Failed` where a call of the source fails. The bytes that came before it are taken from the
/// source, and their number isn't answered.
pub fn read_full<S: Source>(source: &mut S, out: &mut [u8]) -> Result<usize, Failed>
    ensures bound { ReadsAtMost result out.new }
    ensures bytes { IfOk result (λ n.
        Consumes (S.left source.old) (S.left source.new) (take n out.new)) }
    ensures end { IfOk result (λ n. n < length out.old → IsAtEnd (S.left source.new)) }

    ensures err { OnErr result
        (ConsumesBelow (S.left source.old) (S.left source.new) (length out.old)) }
    ensures cause { HasCause (S.faults source.old) (S.faults source.new) result }

    ensures empty { length out.old ≡ 0 → source.new ≡ source.old }
    ensures empty_ok { length out.old ≡ 0 → result ≡ Ok 0 }
{
    let mut filled = 0;
    while filled < out.len() {
        let count = source.read(&mut out[filled..])?;
        if count == 0 {
            break;
        }
        filled += count;
    }
    Ok(filled)
}

/// Writes all of `bytes`.
///
/// # Errors
///
/// `Failed` where a call of the sink fails. The sink keeps what it took before, which is less than
/// all, and its number isn't answered.
pub fn write_whole<K: Sink>(sink: &mut K, bytes: &[u8]) -> Result<(), Failed>
    ensures ok { OnOk result (Appends (K.taken sink.old) (K.taken sink.new) bytes.now) }

    ensures err { OnErr result (AppendsFront (K.taken sink.old) (K.taken sink.new) bytes.now) }
    ensures short { OnErr result
        (AppendsBelow (K.taken sink.old) (K.taken sink.new) (length bytes.now)) }
    ensures cause { HasCause (K.faults sink.old) (K.faults sink.new) result }

    ensures empty { length bytes.now ≡ 0 → sink.new ≡ sink.old }
    ensures empty_ok { length bytes.now ≡ 0 → IsOk result }
{
    let mut written = 0;
    while written < bytes.len() {
        written += sink.write(&bytes[written..])?;
    }
    Ok(())
}
