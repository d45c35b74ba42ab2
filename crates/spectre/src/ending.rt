//! How the taking of a scenario ends, shared by the functions that write and by those that turn it
//! into a status.

use sp_ids::Memory as Refused;
use sp_io::Failed;

/// How a scenario that was taken to its end, or to its first fault, ended.
#[derive(Clone, Copy, Debug, PartialEq, Eq)]
pub enum Ending {
    /// It has no fault.
    Whole,
    /// It has a fault, whose line was written last.
    Faulty,
}

/// Why it stopped before that.
#[derive(Clone, Copy, Debug, PartialEq, Eq)]
pub enum Stop {
    /// A write failed.
    WriteFault,
    /// Memory was refused.
    Memory,
}

impl From<Failed> for Stop {
    ghost use Rattle.std.specs.Prelude.{◌≡◌};
    ghost use Rattle.spectre.specs.declared.ending.Stop.TheVariants as stops;

    ghost from_gives = { λ _ e. e ≡ stops.WriteFault };

    fn from(_failed: Failed) -> Stop {
        Stop::WriteFault
    }
}

impl From<Refused> for Stop {
    ghost use Rattle.std.specs.Prelude.{◌≡◌};
    ghost use Rattle.spectre.specs.declared.ending.Stop.TheVariants as stops;

    ghost from_gives = { λ _ e. e ≡ stops.Memory };

    fn from(_refused: Refused) -> Stop {
        Stop::Memory
    }
}
