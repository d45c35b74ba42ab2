//! A block that joins a set of blocks.

ghost use Rattle.sp_view.specs.Facts.{facts};
ghost use Rattle.sp_view.specs.Voting.{IsJoined};

use crate::voting::Voting;
use sp_bits::Row;

// The set with the block, the members before, and the block.
#[derive(Clone, Copy)]
pub(crate) struct Joining<'a, 'b> {
    pub(crate) set: Voting<'a>,
    pub(crate) before: &'b Row,
    pub(crate) b: u16,
    ghost joined: { IsJoined set.dag.now set.frozen.now b before.now set.members.now } by { Prim.hlevel facts },
}
