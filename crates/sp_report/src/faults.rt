//! The lines that say where a feed or a list of lines went wrong.

ghost use Rattle.std.specs.Prelude.{◌≡◌};
ghost use Rattle.sp_report.specs.Lines.{malformed_text, too_long_text, truncated_text};

use crate::line::Line;
use crate::lines::numbered;

/// The line of a feed whose bytes break their rules at this place, counted from 0.
#[tactic(auto, unfolding(crate::specs::Lines::malformed_text))]
pub fn malformed_line(place: u32) -> Line
    ensures { result ≡ malformed_text place }
{
    numbered(b"fault malformed ", place)
}

/// The line of a feed that ended too early, after so many bytes.
#[tactic(auto, unfolding(crate::specs::Lines::truncated_text))]
pub fn truncated_line(taken: u32) -> Line
    ensures { result ≡ truncated_text taken }
{
    numbered(b"fault truncated ", taken)
}

/// The line of input that goes on after so many bytes, the most that are taken.
#[tactic(auto, unfolding(crate::specs::Lines::too_long_text))]
pub fn too_long_line(taken: u32) -> Line
    ensures { result ≡ too_long_text taken }
{
    numbered(b"fault too-long ", taken)
}
