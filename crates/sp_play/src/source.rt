//! The reading of a whole scenario from a source, up to the limit of its bytes.

ghost use Rattle.std.specs.Prelude.{◌≡◌, ◌≢◌, ◌<◌, Err, IfOk, IfErr, vec_len};
ghost use Rattle.std.specs.Io.KnownBytes.{Consumes, IsAtEnd};
ghost use Rattle.sp_io.specs.Whole.{ConsumesUpTo};
ghost use Rattle.sp_play.specs.Source.{HasReadCause, scenario_limit};

use sp_io::Source;
use std::alloc::{AllocError, Global};

/// Why a scenario can't be read.
#[derive(Clone, Copy, Debug, PartialEq, Eq)]
pub enum ScenarioFault {
    /// A read failed.
    ReadFault,
    /// So many bytes were taken before the end was met, the limit.
    TooLong { taken: u32 },
    /// Memory was refused.
    Memory,
}

impl From<AllocError> for ScenarioFault {
    ghost use Rattle.std.specs.Prelude.{◌≡◌};
    ghost use Rattle.sp_play.specs.declared.source.ScenarioFault.TheVariants as faults;

    ghost from_gives = { λ _ e. e ≡ faults.Memory };

    fn from(_refused: AllocError) -> ScenarioFault {
        ScenarioFault::Memory
    }
}

/// A scenario has fewer bytes than this.
const LIMIT: u32 = 16_777_216;

/// How many bytes are asked for at a time, at most.
const PIECE: usize = 4096;

/// Reads a source to its end, or until 16,777,216 bytes are taken, and takes no more.
pub fn read_scenario<S: Source>(alloc: Global, source: &mut S) -> Result<Vec<u8>, ScenarioFault>
    ensures bytes { IfOk result (λ text. Consumes (S.left source.old) (S.left source.new) text.items) }
    ensures end { IfOk result (λ _. IsAtEnd (S.left source.new)) }
    ensures short { IfOk result (λ text. vec_len text < scenario_limit) }
    ensures cause { IfErr result (HasReadCause (S.left source.old) (S.left source.new) (S.faults source.old) (S.faults source.new)) }
    ensures taken { ConsumesUpTo (S.left source.old) (S.left source.new) scenario_limit }
    ensures quiet { result ≢ Err ScenarioFault.ReadFault → S.faults source.new ≡ S.faults source.old }
{
    let limit = LIMIT as usize;
    let mut text = Vec::new(alloc);
    let mut piece = [0u8; PIECE];
    'pieces: while text.len() < limit {
        let room = PIECE.min(limit - text.len());
        let Ok(count) = source.read(&mut piece[..room]) else {
            return Err(ScenarioFault::ReadFault);
        };
        if count == 0 {
            return Ok(text);
        }
        text.extend_from_slice(&piece[..count])?;
    }
    Err(ScenarioFault::TooLong { taken: LIMIT })
}
