//! What the votes of a set are asked with.

ghost use Rattle.sp_view.specs.Facts.{facts};
ghost use Rattle.sp_view.specs.Voting.{IsVoting};

use sp_bits::Row;
use sp_dag::Dag;
use sp_frozen::Frozen;

// A set of blocks whose votes can be asked: the graph, its frozen votes, and the members.
#[derive(Clone, Copy)]
pub(crate) struct Voting<'a> {
    pub(crate) dag: &'a Dag,
    pub(crate) frozen: &'a Frozen,
    pub(crate) members: &'a Row,
    ghost voting: { IsVoting dag.now frozen.now members.now } by { Prim.hlevel facts },
}
