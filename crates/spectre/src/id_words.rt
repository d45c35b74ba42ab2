//! Two ids in words of the command line, for a certificate and for the pairs of a watch.

ghost use Rattle.std.specs.Prelude.{◌≡◌};
ghost use Rattle.spectre.specs.IdWords as meant;

use sp_ids::BlockId;

/// The ids that two words spell, with 64 hexadecimal digits each.
pub fn ids_of(first: &[u8], second: &[u8]) -> Option<(BlockId, BlockId)>
    ensures { result ≡ meant.ids_in first.now second.now }
{
    match BlockId::from_hex(first) {
        Ok(x) => match BlockId::from_hex(second) {
            Ok(y) => Some((x, y)),
            Err(_) => None,
        },
        Err(_) => None,
    }
}
