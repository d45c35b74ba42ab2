//! Flags that differ, and that are added.

ghost use Rattle.std.specs.Prelude.{◌≡◌, ◌≤◌, length, vec_capacity};
ghost use Rattle.sp_accept.specs.Flips.{differ};
ghost use Rattle.sp_accept.specs.Todo.{grown};

/// Whether a flag is another one than it was.
pub(crate) fn differ(was: bool, now: bool) -> bool
    ensures { result ≡ differ was now }
{
    was != now
}

/// Adds flags that aren't set up to a length, for which there is room.
pub(crate) fn grow(flags: &mut Vec<bool>, long: usize)
    requires short { length flags.old.items ≤ long }
    requires room { long ≤ vec_capacity flags.old }
    ensures { flags.new.items ≡ grown flags.old.items long }
{
    'flags: for _ in flags.len()..long {
        flags.push_reserved(false);
    }
}
