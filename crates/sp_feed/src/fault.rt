//! Why a feed isn't read on (docs/FORMATS.md, "Feeds"). Places are counted in bytes from the feed's
//! first, which is 0.

use sp_ids::Memory;
use std::alloc::AllocError;

/// Why a feed can't be read on.
#[derive(Clone, Copy, Debug, PartialEq, Eq)]
pub enum FeedFault {
    /// The field at this place breaks its rule.
    Malformed { at: u32 },
    /// The source ended before the frame `E` was whole, after so many bytes.
    Truncated { at: u32 },
    /// The source failed.
    ReadFault,
    /// As many bytes were taken as the limit allows, and another was needed.
    TooLong { taken: u32 },
}

/// Why a feed's head wasn't read.
#[derive(Clone, Copy, Debug, PartialEq, Eq)]
pub enum HeadFault {
    /// The feed, or its source, is at fault.
    Feed(FeedFault),
    /// There was no memory for the genesis block.
    Memory,
}

impl From<FeedFault> for HeadFault {
    ghost use Rattle.std.specs.Prelude.{◌≡◌};
    ghost use Rattle.sp_feed.specs.declared.fault.HeadFault.TheVariants as faults;

    ghost from_gives = { λ fault e. e ≡ faults.Feed fault };

    fn from(fault: FeedFault) -> HeadFault {
        HeadFault::Feed(fault)
    }
}

impl From<AllocError> for HeadFault {
    ghost use Rattle.std.specs.Prelude.{◌≡◌};
    ghost use Rattle.sp_feed.specs.declared.fault.HeadFault.TheVariants as faults;

    ghost from_gives = { λ _ e. e ≡ faults.Memory };

    fn from(_refused: AllocError) -> HeadFault {
        HeadFault::Memory
    }
}

impl From<Memory> for HeadFault {
    ghost use Rattle.std.specs.Prelude.{◌≡◌};
    ghost use Rattle.sp_feed.specs.declared.fault.HeadFault.TheVariants as faults;

    ghost from_gives = { λ _ e. e ≡ faults.Memory };

    fn from(_refused: Memory) -> HeadFault {
        HeadFault::Memory
    }
}
