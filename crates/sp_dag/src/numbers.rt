//! The numbers of a block's parents, a type of its own so that contracts see a table of them as
//! lists of numbers.

ghost use Rattle.std.specs.Prelude.{◌≡◌, ◌≤◌, map, All, IfOk, IsTrue};
ghost use Rattle.indexmap.specs.IndexSet.{index_set_len};
ghost use Rattle.sp_model.specs.Graph.{has};
ghost use Rattle.sp_dag.specs.Numbered.{number_of};

use indexmap::IndexSet;
use sp_ids::{BlockId, Memory};
use std::alloc::Global;
use std::marker::Model;

// The numbers of a block's parents, in their order.
#[derive(Drop)]
pub(crate) struct Numbers {
    list: Vec<u16>,
}

impl Model for Numbers {
    ghost use Rattle.std.specs.Prelude.{ℕ, List};

    ghost Value = { List ℕ };

    ghost view = { λ numbers. numbers.list.items };
}

impl Numbers {
    pub(crate) fn of(list: Vec<u16>) -> Numbers
        ensures { result ≡ list.items }
    {
        Numbers { list }
    }

    pub(crate) fn as_slice(&self) -> &[u16]
        ensures { result.now ≡ self.now }
    {
        self.list.as_slice()
    }
}

// The number of an id that is there.
fn number_in(ids: &IndexSet<BlockId>, id: &BlockId) -> u16
    requires small { index_set_len ids.now ≤ 512 }
    ensures { result ≡ number_of ids.now.keys id.now }
{
    ids.get_index_of(id).unwrap_or(0) as u16
}

// The numbers of ids that are there.
pub(crate) fn numbers_in(
    alloc: Global,
    ids: &IndexSet<BlockId>,
    parents: &[BlockId],
) -> Result<Numbers, Memory>
    requires small { index_set_len ids.now ≤ 512 }
    ensures { IfOk result (λ numbers. numbers ≡ map (number_of ids.now.keys) parents.now) }
{
    let mut numbers = Vec::with_capacity(alloc, parents.len())?;
    for parent in parents {
        numbers.push_reserved(number_in(ids, parent));
    }
    Ok(Numbers::of(numbers))
}
