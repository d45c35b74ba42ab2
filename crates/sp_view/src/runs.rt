//! Which pairs a block that joins a set goes over. Pairs stand in runs, by their second block. Where the block has
//! neither that nor any first block of the run in its past, it votes on no pair of it, and the run is passed over. So are pairs
//! whose first block is outside the set.

ghost use Rattle.std.specs.Prelude.{◌≡◌, ◌<◌, ◌≤◌, ◌↔◌, ◌&&◌, not, ℕ, List, length, IsTrue, IsFalse, IsNone, IfSome, slice_get, Some};
ghost use Rattle.sp_model.specs.Graph.{has, in_past, related};
ghost use Rattle.sp_model.specs.Joining.{Joins};
ghost use Rattle.sp_model.specs.Loose.{in_bar};
ghost use Rattle.sp_dag.specs.Numbered.{graph_of, pairs_of};
ghost use Rattle.sp_view.specs.Idle.{IsIdle, IsPlace};

use sp_bits::Row;
use sp_dag::Dag;

// A pair, its second block, and where the run of that block's pairs ends. Beside it stands whether the block that joins has
// the second one in its past, and which blocks of that past the second one doesn't bind.
#[derive(Clone, Copy)]
pub(crate) struct Place {
    pub(crate) pair: u32,
    pub(crate) second: u16,
    pub(crate) end: u32,
    pub(crate) above: bool,
    pub(crate) free: Row,
    // Whether each block of the graph is known to be a member.
    whole: bool,
}

// Whether a block that joins a set changes no vote on the pairs whose second block is this one.
fn is_idle(dag: &Dag, members: &Row, b: u16, second: u16) -> bool
    requires b_in { b < length dag.now.parents }
    requires second_in { second < length dag.now.parents }
    ensures { IsTrue result → (before : List ℕ) (x : ℕ) → x < second →
        IsFalse (related (graph_of dag.now) x second) →
        Joins (graph_of dag.now) b before members.now →
        IsIdle (graph_of dag.now) b before members.now x second }
{
    // Tells the proof that there are at most 512 blocks, in order.
    let _blocks = dag.len();
    if !members.test(second) {
        return true;
    }
    if second >= b {
        return false;
    }
    let past = dag.past(b);
    if past.test(second) {
        return false;
    }
    let mut apart = *past;
    apart.without(dag.past(second));
    match apart.highest_below(second) {
        Some(_) => false,
        None => true,
    }
}

// The blocks in the past of block `b` that neither are the second block nor have it in their past.
fn free_below(dag: &Dag, b: u16, second: u16) -> Row
    requires b_in { b < length dag.now.parents }
    requires second_in { second < length dag.now.parents }
    ensures { (z : ℕ) → has result z
        ≡ (in_past (graph_of dag.now) z b && not (in_bar (graph_of dag.now) second z)) }
{
    // Tells the proof that there are at most 512 blocks, in order.
    let _blocks = dag.len();
    let mut free = *dag.past(b);
    free.without(dag.closed(second));
    free
}

// The first pair from a number on whose first block is a member, up to another number, which is answered where there is none.
fn member_from(dag: &Dag, members: &Row, pair: u32, end: u32) -> u32
    requires order { pair ≤ end }
    requires within { end ≤ length (pairs_of dag.now) }
    ensures from { pair ≤ result }
    ensures within { result ≤ end }
    ensures out { (i x z : ℕ) → slice_get (pairs_of dag.now) i ≡ Some (x, z) →
        pair ≤ i → i < result → IsFalse (has members.now x) }
{
    // Tells the proof that there are at most 512 blocks.
    let _blocks = dag.len();
    'pairs: for i in pair..end {
        let (x, _) = dag.pair(i);
        if members.test(x) {
            return i;
        }
    }
    end
}

// The run of the pairs of a second block, at its first one whose first block is a member. There is none where no pair of it
// is such a one, or where it is passed over.
fn run_of(dag: &Dag, members: &Row, b: u16, second: u16) -> Option<Place>
    requires b_in { b < length dag.now.parents }
    requires second_in { second < length dag.now.parents }
    ensures none { IsNone result → (before : List ℕ) (i x : ℕ) →
        slice_get (pairs_of dag.now) i ≡ Some (x, second) →
        Joins (graph_of dag.now) b before members.now →
        IsIdle (graph_of dag.now) b before members.now x second }
    ensures place { IfSome result (λ place. IsPlace dag.now b place.pair place.second place.end
        place.above place.free) }
    ensures idle { IfSome result (λ place. (before : List ℕ) (i x z : ℕ) →
        slice_get (pairs_of dag.now) i ≡ Some (x, z) →
        Joins (graph_of dag.now) b before members.now → second ≤ z → i < place.pair →
        IsIdle (graph_of dag.now) b before members.now x z) }
    ensures least { IfSome result (λ place. (i x z : ℕ) →
        slice_get (pairs_of dag.now) i ≡ Some (x, z) → place.pair ≤ i → second ≤ z) }
{
    // Tells the proof that there are at most 512 blocks.
    let _blocks = dag.len();
    let first = dag.first_pair(second);
    let end = dag.first_pair(second + 1);
    if end <= first {
        return None;
    }
    if is_idle(dag, members, b, second) {
        return None;
    }
    let pair = member_from(dag, members, first, end);
    if end <= pair {
        return None;
    }
    Some(Place {
        pair,
        second,
        end,
        above: dag.in_past(second, b),
        free: free_below(dag, b, second),
        whole: members.count() == dag.len() as u32,
    })
}

// The first pair of a run, from that of this second block on, that isn't passed over.
pub(crate) fn busy_from(dag: &Dag, members: &Row, b: u16, second: u16) -> Place
    requires b_in { b < length dag.now.parents }
    requires second_in { second ≤ length dag.now.parents }
    ensures place { IsPlace dag.now b result.pair result.second result.end
        result.above result.free }
    ensures idle { (before : List ℕ) (i x z : ℕ) → slice_get (pairs_of dag.now) i ≡ Some (x, z) →
        Joins (graph_of dag.now) b before members.now → second ≤ z → i < result.pair →
        IsIdle (graph_of dag.now) b before members.now x z }
    ensures least { (i x z : ℕ) → slice_get (pairs_of dag.now) i ≡ Some (x, z) →
        result.pair ≤ i → second ≤ z }
{
    let blocks = dag.len();
    'seconds: for y in second..blocks {
        match run_of(dag, members, b, y) {
            Some(place) => return place,
            None => {}
        }
    }
    let end = dag.pair_count();
    Place {
        pair: end,
        second: blocks,
        end,
        above: false,
        free: Row::empty(),
        whole: true,
    }
}

// The next pair of a run whose first block is a member, and where there is none, where the run ends.
fn next_inside(dag: &Dag, members: &Row, place: &Place) -> u32
    requires order { place.now.pair < place.now.end }
    requires within { place.now.end ≤ length (pairs_of dag.now) }
    ensures from { place.now.pair < result }
    ensures within { result ≤ place.now.end }
    ensures out { (i x z : ℕ) → slice_get (pairs_of dag.now) i ≡ Some (x, z) →
        place.now.pair < i → i < result → IsFalse (has members.now x) }
{
    // Tells the proof that there are at most 130,816 pairs.
    let _pairs = dag.pair_count();
    let next = place.pair + 1;
    if place.whole {
        return next;
    }
    member_from(dag, members, next, place.end)
}

// Goes on to the first pair behind a run that isn't passed over.
fn next_run(dag: &Dag, members: &Row, b: u16, place: &mut Place)
    requires b_in { b < length dag.now.parents }
    requires second_in { place.old.second < length dag.now.parents }
    ensures place { IsPlace dag.now b place.new.pair place.new.second place.new.end
        place.new.above place.new.free }
    ensures idle { (before : List ℕ) (i x z : ℕ) → slice_get (pairs_of dag.now) i ≡ Some (x, z) →
        Joins (graph_of dag.now) b before members.now → place.old.second < z →
        i < place.new.pair → IsIdle (graph_of dag.now) b before members.now x z }
    ensures least { (i x z : ℕ) → slice_get (pairs_of dag.now) i ≡ Some (x, z) →
        place.new.pair ≤ i → place.old.second < z }
{
    // Tells the proof that there are at most 512 blocks.
    let _blocks = dag.len();
    *place = busy_from(dag, members, b, place.second + 1);
}

// Goes on to the next pair that isn't passed over.
pub(crate) fn go_on(dag: &Dag, members: &Row, b: u16, place: &mut Place)
    requires b_in { b < length dag.now.parents }
    requires place { IsPlace dag.now b place.old.pair place.old.second place.old.end
        place.old.above place.old.free }
    requires listed { place.old.pair < length (pairs_of dag.now) }
    ensures place { IsPlace dag.now b place.new.pair place.new.second place.new.end
        place.new.above place.new.free }
    ensures later { place.old.pair < place.new.pair }
    ensures idle { (before : List ℕ) (i x z : ℕ) → slice_get (pairs_of dag.now) i ≡ Some (x, z) →
        Joins (graph_of dag.now) b before members.now → place.old.pair < i → i < place.new.pair →
        IsIdle (graph_of dag.now) b before members.now x z }
{
    // Tells the proof that there are at most 512 blocks.
    let _blocks = dag.len();
    let next = next_inside(dag, members, place);
    if next < place.end {
        place.pair = next;
        return;
    }
    next_run(dag, members, b, place);
}
