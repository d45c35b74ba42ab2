//! An engine to which the blocks of a graph come one by one.

ghost use Rattle.std.specs.Prelude.{◌≡◌, ◌≤◌, false, length, IfSome};
ghost use Rattle.sp_tests_views.specs.Voting.{CanVote};

use sp_engine::{Answer, Engine};
use sp_fixtures::{Numbered, genesis_of};
use sp_model::Profile;
use sp_view::View;
use std::alloc::Global;
use std::test::Fail;

/// An engine of these bytes' genesis block alone, which takes no work.
pub(crate) fn engine_in(alloc: Global, profile: Profile, genesis: &[u8]) -> Result<Engine, Fail> {
    Ok(Engine::new(alloc, genesis_of(alloc, genesis)?, 0, profile)?)
}

/// An engine of genesis alone.
pub(crate) fn engine_of(
    alloc: Global,
    blocks: &Numbered,
    profile: Profile,
) -> Result<Engine, Fail> {
    engine_in(alloc, profile, blocks.text(0))
}

/// Bytes come to an engine, whatever it answers.
pub(crate) fn offer(engine: &mut Engine, bytes: &[u8]) -> Result<(), Fail> {
    let _answer = engine.offer(bytes)?;
    Ok(())
}

/// A block comes to an engine, whose parents are all present.
pub(crate) fn come(engine: &mut Engine, blocks: &Numbered, number: usize) -> Result<(), Fail> {
    match engine.offer(blocks.text(number))? {
        Answer::Kept { id: _, present: 1 } => Ok(()),
        _ => Err("not present".into()),
    }
}

/// The view of a tip and its past, by the tip's number, or that of all blocks by the number behind the
/// last one.
pub(crate) fn view_at(engine: &Engine, n: u16) -> Option<&View>
    requires { n ≤ length engine.now.numbered.parents }
    ensures { IfSome result (λ view. CanVote engine.now.numbered
        engine.now.votes.frozen engine.now.votes.rows view.now) }
{
    // Tells the proof that all blocks have frozen votes.
    let _frozen = engine.frozen();
    if n < engine.present() {
        engine.tip_view(n)
    } else {
        Some(engine.view_all())
    }
}
