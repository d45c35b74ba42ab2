//! Which calls fail: the plan that both objects in memory follow.

ghost use Rattle.std.specs.Prelude.{◌↔◌, IsTrue};

use crate::calls::Calls;

/// Which calls of an object in memory fail. Its calls are counted from 0, those that fail and
/// those with an empty buffer or piece among them. The count stays at 2^64 - 1 once it is there,
/// so that each later call has that number.
pub enum Fails {
    /// None.
    Never,
    /// Those of these numbers, and no other. Each call costs a pass over the list.
    At(Calls),
    /// The one of this number and each after it.
    From(u32),
}

// Written out, so that where a plan is let go there is one call, and no branch.
impl Drop for Fails {
    fn drop(self) {
        match self {
            Fails::Never => {}
            Fails::At(_) => {}
            Fails::From(_) => {}
        }
    }
}

impl Fails {
    ghost use Rattle.sp_io.specs.Fails.{FailsAt};

    /// Whether the call of this number fails. It costs a pass over the list where there is one.
    pub fn holds_at(&self, call: u64) -> bool
        ensures { IsTrue result ↔ FailsAt self.now call }
    {
        match self {
            Fails::Never => false,
            Fails::At(calls) => calls
                .as_slice()
                .iter()
                .any(|listed| u64::from(*listed) == call),
            Fails::From(first) => u64::from(*first) <= call,
        }
    }
}
