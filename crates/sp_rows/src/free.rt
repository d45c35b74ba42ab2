//! Which rows are free. They are handed out by number, from a row on, so that rows that are taken one behind the other lie
//! side by side, and are read sooner. A row that was given back before that one comes again once all others were handed out,
//! or once there are many such rows.

ghost use Rattle.std.specs.Prelude.{◌≡◌, ◌+◌, ◌^◌, ◌<◌, ◌≤◌, ℕ, List, take, length, slice_index_or, slice_set};
ghost use Rattle.sp_rows.specs.Kept.{IsFree, live_of};

/// Up to which row they were handed out. A row is free where it isn't counted.
#[derive(Clone, Copy)]
pub struct Free {
    // The rows before this one were handed out, or were passed by.
    pub(crate) from: usize,
    // How many of these aren't counted.
    pub(crate) behind: usize,
    // The lowest of these, where there are any.
    pub(crate) lowest: usize,
}

impl Free {
    /// None was handed out yet.
    pub(crate) fn new() -> Free
        ensures { (counts : List ℕ) → IsFree counts result }
    {
        Free {
            from: 0,
            behind: 0,
            lowest: 0,
        }
    }

    /// The free row that is taken next, of so many: the lowest one that comes, or the lowest of all where none does.
    pub(crate) fn next(&mut self, counts: &[u32], spare: usize) -> u32
        requires free { IsFree counts.now self.old }
        requires few { length counts.now ≤ 2 ^ 31 }
        requires all { spare + live_of counts.now ≡ length counts.now }
        requires some { 0 < spare }
        ensures within { result < length counts.now }
        ensures none { slice_index_or counts.now result 0 ≡ 0 }
        ensures free { IsFree (slice_set counts.now result 1) self.new }
    {
        if self.behind >= spare {
            self.begin_again();
        }
        let id = first_uncounted(counts, self.from);
        self.from = id + 1;
        id as u32
    }

    /// Begins again at the lowest row that was passed by and isn't counted, where there is one.
    pub(crate) fn begin_again(&mut self)
        ensures some { self.new.behind ≡ 0 }
        ensures free { (counts : List ℕ) → IsFree counts self.old → IsFree counts self.new }
    {
        if self.behind > 0 {
            self.from = self.lowest;
            self.behind = 0;
        }
    }

    /// A row that isn't counted any more is free.
    pub(crate) fn give(&mut self, id: u32)
        requires { self.old.behind < 2 ^ 32 }
        ensures { (counts : List ℕ) → IsFree counts self.old → 0 < slice_index_or counts id 0 →
            IsFree (slice_set counts id 0) self.new }
    {
        if (id as usize) < self.from {
            if self.behind == 0 || (id as usize) < self.lowest {
                self.lowest = id as usize;
            }
            self.behind += 1;
        }
    }
}

// The first row from this one on that isn't counted, where there is one.
fn first_uncounted(counts: &[u32], from: usize) -> usize
    requires within { from ≤ length counts.now }
    requires some { live_of counts.now + from < length counts.now + live_of (take from counts.now) }
    ensures behind { from ≤ result }
    ensures within { result < length counts.now }
    ensures none { slice_index_or counts.now result 0 ≡ 0 }
    ensures passed { live_of (take result counts.now) + from ≡ live_of (take from counts.now) + result }
{
    let mut at = from;
    'rows: while counts[at] != 0 {
        at += 1;
    }
    at
}
