//! The first blocks of a graph, as a set whose votes can be asked: they hold the past of each.

ghost use Rattle.std.specs.Prelude.{◌≡◌, ◌≤◌, length};
ghost use Rattle.std.specs.List.{range_with_len};
ghost use Rattle.sp_dag.specs.Numbered.{graph_of};
ghost use Rattle.sp_plain.specs.Plain.{IsClosed};

use sp_bits::Row;
use sp_dag::Dag;

/// The numbers of so many first blocks.
pub fn first_blocks(dag: &Dag, count: u16) -> Row
    requires { count ≤ length dag.now.parents }
    ensures numbers { result ≡ range_with_len 0 count }
    ensures closed { IsClosed (graph_of dag.now) (length dag.now.parents) result }
{
    // Tells the proof that the blocks stand in order, and that there are at most 512.
    let _blocks = dag.len();
    let mut row = Row::empty();
    'numbers: for number in 0..count {
        row.set(number);
    }
    row
}
