//! Why a call of the journal didn't do its work.

ghost use Rattle.std.specs.Prelude.{◌≡◌};
ghost use Rattle.sp_journal.specs.declared.fault.CreateFault.TheVariants.{DiskFault, Memory};
ghost use Rattle.sp_journal.specs.declared.fault.JournalFault.TheVariants as opening;

use crate::gate_kind::Gate;
use sp_io::Failed;
use std::alloc::AllocError;

/// Why a record wasn't added.
#[derive(Clone, Copy, Debug, PartialEq, Eq)]
pub enum AppendFault {
    /// A call of the disk failed. The disk may hold the record or not, and the journal answers
    /// `Closed` from then on.
    DiskFault,
    /// An earlier append of this journal answered `DiskFault`. Nothing was asked of the disk.
    Closed,
}

/// Why no journal was created.
#[derive(Clone, Copy, Debug, PartialEq, Eq)]
pub enum CreateFault {
    /// A call of the disk failed. The disk may hold the new journal or none.
    DiskFault,
    /// There was no memory for the journal's room. Nothing was asked of the disk.
    Memory,
}

/// Why no journal was opened.
#[derive(Clone, Copy, Debug, PartialEq, Eq)]
pub enum JournalFault {
    /// The disk holds no journal; what stands at place 0.
    NotJournal { gate: Gate },
    /// The gate of a record is due at this place, in bytes from 0, and it is missing, or the record is
    /// none that the journal may hold.
    Damaged { at: u64 },
    /// A call of the disk failed.
    DiskFault,
    /// There was no memory for what the disk holds.
    Memory,
}

impl From<sp_ids::Memory> for JournalFault {
    ghost from_gives = { λ _ e. e ≡ opening.Memory };

    fn from(_refused: sp_ids::Memory) -> JournalFault {
        JournalFault::Memory
    }
}

impl From<AllocError> for JournalFault {
    ghost from_gives = { λ _ e. e ≡ opening.Memory };

    fn from(_refused: AllocError) -> JournalFault {
        JournalFault::Memory
    }
}

impl From<Failed> for JournalFault {
    ghost from_gives = { λ _ e. e ≡ opening.DiskFault };

    fn from(_failed: Failed) -> JournalFault {
        JournalFault::DiskFault
    }
}

impl From<AllocError> for CreateFault {
    ghost from_gives = { λ _ e. e ≡ Memory };

    fn from(_refused: AllocError) -> CreateFault {
        CreateFault::Memory
    }
}

impl From<Failed> for CreateFault {
    ghost from_gives = { λ _ e. e ≡ DiskFault };

    fn from(_failed: Failed) -> CreateFault {
        CreateFault::DiskFault
    }
}
