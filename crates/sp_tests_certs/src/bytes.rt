//! The bytes of a certificate, and what is said of bytes.

use sp_cert::{Cert, CertFault, CheckFault, check, read_cert, write_cert};
use sp_io::{Fails, MemSink, MemSource};
use std::alloc::Global;
use std::test::Fail;

/// What is said of bytes: that they show their sign, or why not, or else why they are no certificate.
#[derive(Clone, Copy, PartialEq, Eq)]
pub enum Told {
    Shown,
    Malformed(u32),
    Truncated(u32),
    Parent(u16),
    Pair,
    World(u16),
    Vote(u16, u16),
    Sum,
    /// The source failed, or there was no memory.
    Nothing,
}

fn said_of(read: CertFault) -> Told {
    match read {
        CertFault::Malformed { at } => Told::Malformed(at),
        CertFault::Truncated { at } => Told::Truncated(at),
        _ => Told::Nothing,
    }
}

fn judged(judged: Result<(), CheckFault>) -> Told {
    match judged {
        Ok(()) => Told::Shown,
        Err(CheckFault::Parent { block }) => Told::Parent(block),
        Err(CheckFault::Pair) => Told::Pair,
        Err(CheckFault::World { place }) => Told::World(place),
        Err(CheckFault::Vote { place, block }) => Told::Vote(place, block),
        Err(CheckFault::Sum) => Told::Sum,
        Err(CheckFault::Memory) => Told::Nothing,
    }
}

/// The bytes of a certificate, of which there are at most 100,000.
pub fn written(alloc: Global, cert: &Cert) -> Result<Vec<u8>, Fail> {
    let mut sink = MemSink::new(alloc, 100_000, 500, Fails::Never)?;
    match write_cert(cert, &mut sink) {
        Ok(()) => Ok(Vec::from_slice(alloc, sink.bytes())?),
        Err(_) => Err("not written".into()),
    }
}

/// What is read of bytes, so many at most at a time.
pub fn read(alloc: Global, bytes: &[u8], step: u16) -> Result<Result<Cert, CertFault>, Fail> {
    if step == 0 {
        return Err("no step".into());
    }
    let mut source = MemSource::new(Vec::from_slice(alloc, bytes)?, step, Fails::Never);
    Ok(read_cert(alloc, &mut source))
}

/// What is said of bytes.
pub fn said(alloc: Global, bytes: &[u8]) -> Result<Told, Fail> {
    match read(alloc, bytes, 4_096)? {
        Ok(cert) => {
            let said = judged(check(alloc, &cert));
            drop(cert);
            Ok(said)
        }
        Err(fault) => Ok(said_of(fault)),
    }
}
