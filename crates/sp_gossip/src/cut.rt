//! Where a script begins in a text.

ghost use Rattle.std.specs.Prelude.{◌≡◌, ◌≤◌, ◌<◌, ◌+◌, ◌&&◌, if◌then◌else◌, drop, length, None, Some, take, true};
ghost use Rattle.sp_gossip.specs.Cut.{line_count, parts};
ghost use Rattle.sp_gossip.specs.Script.{begins_with_nodes};
ghost use Rattle.sp_play.specs.Source.{scenario_limit};

use crate::script::begins_with_nodes;

/// Where a script begins in a text.
#[derive(Clone, Copy, Debug, PartialEq, Eq)]
pub struct Cut {
    /// How many bytes stand before it.
    pub place: usize,
    /// How many lines they are.
    pub lines: u32,
    /// Whether there is one.
    pub found: bool,
}

// Whether a script begins at a place, where a line begins there or doesn't.
fn is_script(text: &[u8], place: usize, begins: bool) -> bool
    requires { place ≤ length text.now }
    ensures { result ≡ (begins && begins_with_nodes (drop place text.now)) }
{
    begins && begins_with_nodes(text.split_at(place).1)
}

// One line end more, where a byte is one.
fn counted(ends: u32, is_end: bool) -> u32
    requires { ends < 16777216 }
    ensures { result ≡ (if is_end then ends + 1 else ends) }
{
    if is_end { ends + 1 } else { ends }
}

// So many line ends, and a line behind them, unless the next one would begin there.
fn lines_by(ends: u32, begins: bool) -> u32
    requires { ends < 16777216 }
    ensures { result ≡ (if begins then ends else ends + 1) }
{
    if begins { ends } else { ends + 1 }
}

/// Cuts a text before its first line whose first word is `nodes`, or at its end where there is no such
/// line. It takes time in proportion to the bytes, and no memory.
pub fn find_script(text: &[u8]) -> Cut
    requires { length text.now < scenario_limit }
    ensures within { result.place ≤ length text.now }
    ensures scenario { take result.place text.now ≡ (parts text.now).scenario }
    ensures script { (parts text.now).script
        ≡ (if result.found then Some (drop result.place text.now) else None) }
    ensures begins { result.found ≡ true →
        begins_with_nodes (drop result.place text.now) ≡ true }
    ensures lines { result.lines ≡ line_count (parts text.now).scenario }
    ensures few { result.lines ≤ result.place }
{
    let mut begins = true;
    let mut ends = 0;
    'bytes: for place in 0..text.len() {
        if is_script(text, place, begins) {
            return Cut {
                place,
                lines: ends,
                found: true,
            };
        }
        begins = text[place] == b'\n';
        ends = counted(ends, begins);
    }
    Cut {
        place: text.len(),
        lines: lines_by(ends, begins),
        found: false,
    }
}
