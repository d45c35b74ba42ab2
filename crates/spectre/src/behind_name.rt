//! The words of the command line without the program's name, apart from the call of the system that gives
//! them all.

ghost use Rattle.std.specs.Prelude.{◌≡◌, drop, IfOk};
ghost use Rattle.std.specs.Vec.Iter.{into_iter_items};

use std::alloc::{AllocError, Global};
use std::env::Args;

/// All words that are left.
fn collected(alloc: Global, all: Args<Global>) -> Result<Vec<String>, AllocError>
    ensures { IfOk result (λ words. words.items ≡ into_iter_items all) }
{
    let mut words = Vec::new(alloc);
    let mut rest = all;
    'each: loop {
        let Some(word) = rest.next() else {
            return Ok(words);
        };
        words.push(word)?;
    }
}

/// All words but the first, which is the program's name.
pub fn behind_name(alloc: Global, all: Args<Global>) -> Result<Vec<String>, AllocError>
    ensures { IfOk result (λ words. words.items ≡ drop 1 (into_iter_items all)) }
{
    let mut rest = all;
    let _name = rest.next();
    collected(alloc, rest)
}
