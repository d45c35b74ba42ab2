//! What can be written whole, and why it wasn't. They stand apart from the texts because the
//! definitions cite them.

use sp_ids::Memory;
use sp_io::Failed;

/// A text over all present blocks.
#[derive(Clone, Copy, Debug, PartialEq, Eq)]
pub enum Text {
    /// What is said of each pair of blocks.
    Pairs,
    /// How many blocks there are, which transactions are accepted, and what these leave under each
    /// lock.
    Report,
}

/// Why a text wasn't written whole.
#[derive(Clone, Copy, Debug, PartialEq, Eq)]
pub enum TextFault {
    /// The sink failed. It took a front of the text.
    WriteFault,
    /// There was no memory for the order of the lines. Nothing was written.
    Memory,
}

impl From<Failed> for TextFault {
    ghost use Rattle.std.specs.Prelude.{◌≡◌};
    ghost use Rattle.sp_report.specs.declared.text.TextFault.TheVariants as faults;

    ghost from_gives = { λ _ e. e ≡ faults.WriteFault };

    fn from(_failed: Failed) -> TextFault {
        TextFault::WriteFault
    }
}

impl From<Memory> for TextFault {
    ghost use Rattle.std.specs.Prelude.{◌≡◌};
    ghost use Rattle.sp_report.specs.declared.text.TextFault.TheVariants as faults;

    ghost from_gives = { λ _ e. e ≡ faults.Memory };

    fn from(_refused: Memory) -> TextFault {
        TextFault::Memory
    }
}
