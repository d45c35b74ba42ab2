//! Bytes that are no certificate: fronts of one, bytes behind one, and a source that fails.

use crate::bytes::{read, written};
use crate::engine::certificate;
use crate::rows::holds;
use sp_cert::{Cert, CertFault, check, read_cert};
use sp_fixtures::Numbered;
use sp_io::{Calls, Fails, MemSource};
use sp_model::Profile;
use std::alloc::Global;
use std::test::Fail;

/// The bytes of the certificate of two blocks on genesis, 219 of them.
pub fn two_on_genesis(alloc: Global) -> Result<Vec<u8>, Fail> {
    let blocks = Numbered::of(alloc, &[&[0], &[0]])?;
    let cert = certificate(alloc, Profile::One, &blocks, 1, 2)?;
    written(alloc, &cert)
}

/// Whether bytes are no certificate, for this fault.
fn faults(alloc: Global, bytes: &[u8], fault: CertFault) -> Result<bool, Fail> {
    match read(alloc, bytes, 7)? {
        Err(found) => Ok(found == fault),
        Ok(_) => Ok(false),
    }
}

fn shows(alloc: Global, read: &Result<Cert, CertFault>) -> bool {
    match read {
        Ok(cert) => check(alloc, cert) == Ok(()),
        Err(_) => false,
    }
}

#[test]
fn a_byte_at_a_time(rt: HostRuntime) -> Result<(), Fail> {
    let bytes = two_on_genesis(rt.alloc())?;
    holds(&rt, 0, bytes.len() == 219);
    holds(&rt, 1, bytes.ends_with(&[1, 0, 2]));
    let cert = read(rt.alloc(), &bytes, 1)?;
    holds(&rt, 2, shows(rt.alloc(), &cert));
    Ok(())
}

#[test]
fn fronts_and_a_byte_behind(rt: HostRuntime) -> Result<(), Fail> {
    let mut bytes = two_on_genesis(rt.alloc())?;
    for length in 0..219u32 {
        let Some(front) = bytes.get(..length as usize) else {
            return Err("too short".into());
        };
        let fault = CertFault::Truncated { at: length };
        holds(&rt, length as usize, faults(rt.alloc(), front, fault)?);
    }
    bytes.push(0)?;
    let fault = CertFault::Malformed { at: 219 };
    holds(&rt, 219, faults(rt.alloc(), &bytes, fault)?);
    Ok(())
}

#[test]
fn a_failing_source(rt: HostRuntime) -> Result<(), Fail> {
    let fails = Fails::At(Calls::of(Vec::from_slice(rt.alloc(), &[2])?));
    let mut source = MemSource::new(two_on_genesis(rt.alloc())?, 100, fails);
    match read_cert(rt.alloc(), &mut source) {
        Err(CertFault::ReadFault) => Ok(()),
        _ => Err("another answer".into()),
    }
}
