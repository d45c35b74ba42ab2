//! The file that the words name as the disk of a run, apart from `main`, so that tests can run the program on
//! a file.

ghost use Rattle.std.specs.Prelude.{◌≡◌, [], false, IfSome, IsNone, None};
ghost use Rattle.spectre.specs.Files.{path_in};
ghost use Rattle.spectre.specs.Words.{texts};

use crate::files::path_of;
use sp_disk::{Disk, FileDisk};
use std::fs::Files;

/// The file that the words name as a disk; it is made where it isn't there for `node`, and not for
/// `show` and `export`. Where they name none, the path is empty, and no file is opened.
pub fn disk_of<'a, R: Files>(rt: &'a R, words: &'a [String]) -> FileDisk<'a, R>
    ensures file { IfSome (path_in (texts words.now)) (λ file.
        (result.path.now ≡ file.0) × (result.make ≡ file.1)) }
    ensures none { IsNone (path_in (texts words.now))
        → (result.path.now ≡ []) × (result.make ≡ false) }
    ensures untold { (⟦<FileDisk<'a, R> as Disk>⟧.now result).reads ≡ None }
    ensures faults { (⟦<FileDisk<'a, R> as Disk>⟧.now result).faults ≡ 0 }
{
    let (path, make) = path_of(words).unwrap_or(("", false));
    FileDisk::new(rt, path, make)
}
