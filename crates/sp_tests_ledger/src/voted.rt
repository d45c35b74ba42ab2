//! The plain votes of the first blocks of a graph, and the order of all its blocks that their votes give.

ghost use Rattle.std.specs.Prelude.{◌≡◌, ◌≤◌, ◌<◌, negsuc, length, IfOk};
ghost use Rattle.std.specs.List.{range_with_len};
ghost use Rattle.std.specs.Ordering.{int_eq};
ghost use Rattle.sp_dag.specs.Numbered.{graph_of};
ghost use Rattle.sp_plain.specs.Virts.{HasVirts, entry};

use sp_accept::Order;
use sp_dag::Dag;
use sp_ids::Memory;
use sp_plain::{Matrix, Plain, first_blocks};
use std::marker::Model;

/// The virtual votes of the first blocks, as many as the count, on each two of all.
pub fn votes_of_first(plain: &mut Plain, count: u16) -> Result<Matrix, Memory>
    requires { count ≤ length plain.old.parents }
    ensures same { plain.new ≡ plain.old }
    ensures votes { IfOk result (HasVirts (graph_of plain.old) (range_with_len 0 count)
        (length plain.old.parents)) }
{
    let members = first_blocks(plain.dag(), count);
    plain.votes(&members)
}

/// Whether a vote puts x before y.
fn is_first(votes: &Matrix, x: u16, y: u16) -> bool
    requires x_in { x < votes.now.width }
    requires y_in { y < votes.now.width }
    ensures { result ≡ int_eq (entry votes.now x y) (negsuc 0) }
{
    let vote = votes.vote(x, y);
    vote == -1
}

/// The blocks by number, in the order that the votes of all of them give. Contracts see the parents
/// of each block.
#[derive(Drop)]
pub struct VotedOrder<'a> {
    pub dag: &'a Dag,
    pub votes: &'a Matrix,
}

impl<'a> Model for VotedOrder<'a> {
    ghost use Rattle.std.specs.Prelude.{length};
    ghost use Rattle.sp_dag.specs.Numbered.{Numbered, graph_of};
    ghost use Rattle.sp_plain.specs.Virts.{HasVirts};
    ghost use Rattle.sp_engine.specs.Engine.{numbers};

    ghost Value = { Numbered };

    ghost view = { λ o. o.dag.now };

    ghost invariant = { λ o. HasVirts (graph_of o.dag.now) (numbers o.dag.now)
        (length o.dag.now.parents) o.votes.now };
}

impl<'a> Order for VotedOrder<'a> {
    ghost table = { λ o. o };

    fn before(&self, x: u16, y: u16) -> bool {
        is_first(self.votes, x, y)
    }

    fn in_past(&self, x: u16, y: u16) -> bool {
        self.dag.in_past(x, y)
    }
}
