//! What an engine says of each two present blocks and which views it keeps, beside the plain votes of all
//! blocks.

ghost use Rattle.std.specs.Prelude.{◌≡◌, ◌<◌, false, length, IfOk};
ghost use Rattle.sp_dag.specs.Numbered.{graph_of};
ghost use Rattle.sp_plain.specs.Virts.{HasVirts};
ghost use Rattle.sp_engine.specs.Engine.{numbers};

use sp_bits::Row;
use sp_dag::Dag;
use sp_engine::Engine;
use sp_ids::Memory;
use sp_model::Word;
use sp_plain::{Matrix, first_blocks, plain_votes};
use std::alloc::Global;
use std::test::Fail;

/// The virtual votes of all blocks on each two of them.
fn votes_of_all(alloc: Global, dag: &Dag) -> Result<Matrix, Memory>
    ensures { IfOk result
        (HasVirts (graph_of dag.now) (numbers dag.now) (length dag.now.parents)) }
{
    let members = first_blocks(dag, dag.len());
    plain_votes(alloc, dag, &members)
}

fn word_of(vote: i8) -> Word {
    if vote < 0 {
        Word::Before
    } else if vote == 0 {
        Word::Tie
    } else {
        Word::After
    }
}

/// Whether the engine says of a block and each one before it, in both orders, what the votes say.
fn row_agrees(engine: &Engine, votes: &Matrix, x: u16) -> bool
    requires within { x < length engine.now.numbered.parents }
    requires votes { HasVirts (graph_of engine.now.numbered)
        (numbers engine.now.numbered) (length engine.now.numbered.parents) votes.now }
{
    let dag = engine.dag();
    let first = dag.id(x);
    for y in 0..x {
        let second = dag.id(y);
        let one = engine.vote(&first, &second) == word_of(votes.vote(x, y));
        let other = engine.vote(&second, &first) == word_of(votes.vote(y, x));
        if !(one && other) {
            return false;
        }
    }
    true
}

/// Whether the engine says of each two present blocks what their plain votes say.
pub fn all_agree(alloc: Global, engine: &Engine) -> Result<bool, Fail> {
    let dag = engine.dag();
    let votes = votes_of_all(alloc, dag)?;
    for x in 0..dag.len() {
        if !row_agrees(engine, &votes, x) {
            return Ok(false);
        }
    }
    Ok(true)
}

/// Whether a row has the places of a past and one more.
fn is_bar(row: &Row, past: &Row, n: u16) -> bool {
    past.within(row) && row.count() == past.count().saturating_add(1) && row.highest() == Some(n)
}

/// Whether the view of a block that is made anew is that of the block and its past.
fn is_made_anew(engine: &Engine, n: u16) -> Result<bool, Fail>
    requires { n < length engine.now.numbered.parents }
{
    let (view, _rows) = engine.block_view(n)?;
    Ok(is_bar(view.members(), engine.dag().past(n), n))
}

/// Whether so many blocks are present, and the views that the engine keeps are those of all of them,
/// and of each that is no parent with its past.
pub fn views_are_right(engine: &Engine, count: usize) -> Result<bool, Fail> {
    let dag = engine.dag();
    for n in 0..dag.len() {
        let right = match engine.tip_view(n) {
            Some(view) => dag.future(n).count() == 0 && is_bar(view.members(), dag.past(n), n),
            None => dag.future(n).count() > 0,
        };
        if !(right && is_made_anew(engine, n)?) {
            return Ok(false);
        }
    }
    let all = engine.view_all().members().count();
    Ok(all as usize == count && dag.len() as usize == count)
}
