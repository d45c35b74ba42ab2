//! Draws from a seed, and the blocks that they choose as parents.

ghost use Rattle.std.specs.Prelude.{◌≡◌, ◌≤◌, ◌+◌, ◌%◌};
ghost use Rattle.sp_make.specs.Draws as meant;

/// The factor of the state's next value, modulo 2^64.
const FACTOR: u64 = 6_364_136_223_846_793_005;

/// The addend of the state's next value.
const ADDEND: u64 = 1_442_695_040_888_963_407;

/// The state after a draw.
fn next_state(state: u64) -> u64
    ensures { result ≡ meant.next_state state }
{
    state.wrapping_mul(FACTOR).wrapping_add(ADDEND)
}

/// The two blocks that a block was given as parents, as they were drawn, and the state behind that.
/// They are one where they are equal.
#[derive(Clone, Copy)]
pub(crate) struct Drawn {
    pub(crate) first: u64,
    pub(crate) second: u64,
    pub(crate) state: u64,
}

/// Draws two of so many candidates, the lowest of which is given.
#[tactic(auto, unfolding(crate::specs::Draws::state_after))]
fn draw_two(lowest: u64, count: u64, state: u64) -> Drawn
    requires some { 1 ≤ count }
    requires few { lowest + count ≤ 511 }
    ensures first { result.first ≡ lowest + meant.draw state 1 % count }
    ensures second { result.second ≡ lowest + meant.draw state 2 % count }
    ensures state { result.state ≡ meant.state_after state 2 }
{
    let once = next_state(state);
    let twice = next_state(once);
    Drawn {
        first: lowest + (once >> 32) % count,
        second: lowest + (twice >> 32) % count,
        state: twice,
    }
}

/// The parents of a block, drawn from at most `width` blocks before it. One candidate is taken
/// without a draw.
#[tactic(auto, unfolding(crate::specs::Draws::parents_of, crate::specs::Draws::draw_count, crate::specs::Draws::state_after))]
pub(crate) fn draw_parents(number: u64, width: u64, state: u64) -> Drawn
    requires one { 1 ≤ number }
    requires few { number ≤ 511 }
    requires wide { 1 ≤ width }
    ensures parents { meant.once_ascending result.first result.second ≡ meant.parents_of number width state }
    ensures state { result.state ≡ meant.state_after state (meant.draw_count number width) }
{
    let lowest = number.saturating_sub(width);
    let count = number - lowest;
    if count == 1 {
        return Drawn {
            first: lowest,
            second: lowest,
            state,
        };
    }
    draw_two(lowest, count, state)
}
