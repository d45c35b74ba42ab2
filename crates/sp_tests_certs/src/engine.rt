//! Engines of numbered blocks, and the certificates that they give.

use sp_cert::{Cert, certify};
use sp_engine::{Answer, Engine};
use sp_fixtures::{Numbered, genesis_of};
use sp_ids::BlockId;
use sp_model::Profile;
use std::alloc::Global;
use std::test::Fail;

/// An engine of these blocks in a profile, which takes no work. All of them are present.
pub fn engine_of(alloc: Global, profile: Profile, blocks: &Numbered) -> Result<Engine, Fail> {
    let mut engine = Engine::new(alloc, genesis_of(alloc, blocks.text(0))?, 0, profile)?;
    for number in 1..blocks.ids.len() {
        match engine.offer(blocks.text(number))? {
            Answer::Kept { id: _, present: 1 } => {}
            _ => return Err("not present".into()),
        }
    }
    Ok(engine)
}

/// The certificate of two blocks.
pub fn certificate_of(
    alloc: Global,
    engine: &Engine,
    x: &BlockId,
    y: &BlockId,
) -> Result<Cert, Fail> {
    match certify(alloc, engine, x, y) {
        Ok(cert) => Ok(cert),
        Err(_) => Err("no certificate".into()),
    }
}

/// The certificate of the blocks of two numbers.
pub fn certificate(
    alloc: Global,
    profile: Profile,
    blocks: &Numbered,
    x: usize,
    y: usize,
) -> Result<Cert, Fail> {
    let engine = engine_of(alloc, profile, blocks)?;
    let cert = certificate_of(alloc, &engine, &blocks.id(x), &blocks.id(y));
    drop(engine);
    cert
}
