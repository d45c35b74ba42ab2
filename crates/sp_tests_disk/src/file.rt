//! A disk over a file in the folder that the tests run in.

use sp_disk::{Disk, FileDisk};
use sp_io::Failed;
use std::fs;
use std::fs::Files;
use std::io::ErrorKind;
use std::test::Fail;

const PATH: &str = "sp_tests_disk.bytes";

/// The length of the file, which isn't made.
fn len_of<R: Files>(rt: &R) -> Result<u64, Failed> {
    FileDisk::new(rt, PATH, false).len()
}

/// Makes the file: its length at first, two writes, a sync, and its length then.
fn make<R: Files>(rt: &R) -> Result<(u64, u64), Failed> {
    let mut disk = FileDisk::new(rt, PATH, true);
    let first = disk.len()?;
    disk.write_at(0, b"abcd")?;
    disk.write_at(2, b"xyz")?;
    disk.sync()?;
    Ok((first, disk.len()?))
}

/// Four bytes of buffer behind a read at a place.
fn read<R: Files>(rt: &R, at: u64) -> (Result<usize, Failed>, [u8; 4]) {
    let mut out = *b"----";
    let answer = FileDisk::new(rt, PATH, false).read_at(at, &mut out);
    (answer, out)
}

/// Why the length of the file that isn't there can't be had, before and after it is asked for, and whether a
/// file that is for reading alone may not be written.
#[test]
fn reasons(rt: HostRuntime) -> Result<(), Fail> {
    let mut disk = FileDisk::new(&rt, "sp_tests_disk.none", false);
    assert!(rt; disk.reason().is_none());
    assert!(rt; disk.len() == Err(Failed));
    assert!(rt; disk.reason().map(|error| error.kind()) == Some(ErrorKind::NotFound));
    assert!(rt; disk.write_at(0, b"a") == Err(Failed));
    assert!(rt; disk.reason().map(|error| error.kind()) == Some(ErrorKind::PermissionDenied));
    Ok(())
}

#[test]
fn file(rt: HostRuntime) -> Result<(), Fail> {
    let _ = fs::remove_file(&rt, PATH);
    assert!(rt; len_of(&rt) == Err(Failed));
    assert!(rt; !fs::exists(&rt, PATH)?);
    assert!(rt; make(&rt) == Ok((0, 5)));
    assert!(rt; len_of(&rt) == Ok(5));
    assert!(rt; read(&rt, 0) == (Ok(4), *b"abxy"));
    assert!(rt; read(&rt, 3) == (Ok(2), *b"yz--"));
    assert!(rt; read(&rt, 5) == (Ok(0), *b"----"));
    fs::remove_file(&rt, PATH)?;
    Ok(())
}
