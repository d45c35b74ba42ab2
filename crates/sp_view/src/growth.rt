//! A set of blocks that grows by several at once.

ghost use Rattle.sp_dag.specs.Numbered.{graph_of};
ghost use Rattle.sp_view.specs.Facts.{facts};
ghost use Rattle.sp_view.specs.Voting.{IsGrown, IsGrowth};

use crate::voting::Voting;
use sp_bits::Row;

// The set with the blocks that join, the members before, these blocks, and those in their pasts, which are the only voters that
// may be asked anew. The last two are found once for all pairs.
#[derive(Clone, Copy)]
pub(crate) struct Growth<'a, 'b> {
    pub(crate) set: Voting<'a>,
    pub(crate) before: &'b Row,
    pub(crate) blocks: &'b Row,
    pub(crate) below: &'b Row,
    ghost grown: { IsGrown set.dag.now set.frozen.now before.now set.members.now } by { Prim.hlevel facts },
    ghost growth: { IsGrowth (graph_of set.dag.now) before.now set.members.now blocks.now below.now } by { Prim.hlevel facts },
}
