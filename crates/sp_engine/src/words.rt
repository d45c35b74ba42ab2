//! The word that a vote says, and that of two related blocks, which needs no vote.

ghost use Rattle.std.specs.Prelude.{◌≡◌, ◌≢◌, ◌<◌, length, IsTrue, if◌then◌else◌, neg_ℤ, ◌==◌, ◌||◌};
ghost use Rattle.sp_model.specs.Votes.{virt, word_of};
ghost use Rattle.sp_model.specs.Graph.{related};
ghost use Rattle.sp_dag.specs.Numbered.{graph_of};
ghost use Rattle.sp_engine.specs.Engine.{numbers};

use sp_dag::Dag;
use sp_model::Word;

/// The word of a virtual vote on two blocks, given whether they are asked for in the pair's order.
pub(crate) fn word_by(vote: i8, in_order: bool) -> Word
    ensures { result ≡ word_of (if in_order then vote else neg_ℤ vote) }
{
    if vote == 0 {
        Word::Tie
    } else if (vote < 0) == in_order {
        Word::Before
    } else {
        Word::After
    }
}

/// The word of two related blocks: an ancestor comes first.
pub(crate) fn related_word(dag: &Dag, x: u16, y: u16) -> Word
    requires x_in { x < length dag.now.parents }
    requires y_in { y < length dag.now.parents }
    requires other { x ≢ y }
    requires related { IsTrue ((x == y) || related (graph_of dag.now) x y) }
    ensures { result ≡ word_of (virt (graph_of dag.now) (numbers dag.now) x y) }
{
    // Tells the proof that the blocks stand in order.
    let _blocks = dag.len();
    if dag.in_past(x, y) {
        Word::Before
    } else {
        Word::After
    }
}
