//! The order of ranks.

ghost use Rattle.std.specs.Prelude.{◌≡◌};
ghost use Rattle.sp_model.specs.Votes.{by_rank};
ghost use Rattle.sp_model.specs.Graph.{is_lower};

use sp_ids::BlockId;

// Whether the first rank is the lower one, by salt and then by id.
fn is_lower(first: &(u64, BlockId), second: &(u64, BlockId)) -> bool
    ensures { result ≡ is_lower (record { salt = first.now.0; id = first.now.1 }) (record { salt = second.now.0; id = second.now.1 }) }
{
    first.0 < second.0 || (first.0 == second.0 && first.1.cmp(&second.1).is_lt())
}

// -1 where the first rank is the lower one, +1 where the second is.
pub(crate) fn by_rank(first: &(u64, BlockId), second: &(u64, BlockId)) -> i8
    ensures { result ≡ by_rank (record { salt = first.now.0; id = first.now.1 }) (record { salt = second.now.0; id = second.now.1 }) }
{
    if is_lower(first, second) {
        -1
    } else if is_lower(second, first) {
        1
    } else {
        0
    }
}
