//! Why a message wasn't answered.

use sp_ids::Memory;

/// Why a message wasn't answered.
#[derive(Clone, Copy, Debug, PartialEq, Eq)]
pub enum NodeFault {
    /// The sink failed. It took a front of the answer.
    WriteFault,
    /// The disk failed. It may hold the block or not. Nothing was written to the sink.
    DiskFault,
    /// There was no memory for a block, or for the order of what a text lists. Nothing was written.
    Memory,
}

/// Why a block wasn't kept, or not for sure.
#[derive(Clone, Copy, Debug, PartialEq, Eq)]
pub(crate) enum KeepFault {
    /// The disk failed. It may hold the block or not.
    DiskFault,
    /// There was no memory for the block. The disk wasn't called.
    Memory,
}

impl From<Memory> for KeepFault {
    ghost use Rattle.std.specs.Prelude.{◌≡◌};
    ghost use Rattle.sp_node.specs.declared.fault.KeepFault.TheVariants as faults;

    ghost from_gives = { λ _ e. e ≡ faults.Memory };

    fn from(_refused: Memory) -> KeepFault {
        KeepFault::Memory
    }
}
