//! Sets of places written down by hand, with what each call makes of them.

ghost use Rattle.std.specs.Prelude.{◌<◌};

use sp_bits::Row;

/// Two sets, their union, meet and difference, and how the first stands to the second and to the
/// set of places 0, 1 and 2.
struct Case {
    one: &'static [u16],
    other: &'static [u16],
    union: &'static [u16],
    meet: &'static [u16],
    difference: &'static [u16],
    within: bool,
    // Places shared with the other set, less those shared with 0, 1 and 2.
    balance: i32,
    highest: Option<u16>,
    // The greatest place below 64.
    below: Option<u16>,
}

const CASES: &[Case] = &[
    Case {
        one: &[],
        other: &[0, 511],
        union: &[0, 511],
        meet: &[],
        difference: &[],
        within: true,
        balance: 0,
        highest: None,
        below: None,
    },
    Case {
        one: &[0, 63, 64, 511],
        other: &[1, 63, 64, 65, 510],
        union: &[0, 1, 63, 64, 65, 510, 511],
        meet: &[63, 64],
        difference: &[0, 511],
        within: false,
        balance: 1,
        highest: Some(511),
        below: Some(63),
    },
    Case {
        one: &[64, 300],
        other: &[7, 64, 300, 301],
        union: &[7, 64, 300, 301],
        meet: &[64, 300],
        difference: &[],
        within: true,
        balance: 2,
        highest: Some(300),
        below: None,
    },
    Case {
        one: &[0, 1, 2, 9],
        other: &[],
        union: &[0, 1, 2, 9],
        meet: &[],
        difference: &[0, 1, 2, 9],
        within: false,
        balance: -3,
        highest: Some(9),
        below: Some(9),
    },
];

/// The row of these places.
pub fn row_of(places: &[u16]) -> Row {
    let mut row = Row::empty();
    for place in places {
        row.set((*place).min(511));
    }
    row
}

/// Whether the row has just these places.
pub fn has_just(row: &Row, places: &[u16]) -> bool {
    for place in 0..512u16 {
        if row.test(place) != places.contains(&place) {
            return false;
        }
    }
    row.count() as usize == places.len()
}

fn union(one: &Row, other: &Row) -> Row {
    let mut row = *one;
    row.or_with(other);
    row
}

fn meet(one: &Row, other: &Row) -> Row {
    let mut row = *one;
    row.and_with(other);
    row
}

fn difference(one: &Row, other: &Row) -> Row {
    let mut row = *one;
    row.without(other);
    row
}

/// Whether the calls make just these sets.
fn has_sets(case: &Case) -> bool {
    let (one, other) = (row_of(case.one), row_of(case.other));
    let sets = (
        has_just(&union(&one, &other), case.union),
        has_just(&meet(&one, &other), case.meet),
        has_just(&difference(&one, &other), case.difference),
    );
    sets == (true, true, true)
}

/// Whether the calls tell just these numbers.
fn has_numbers(case: &Case) -> bool {
    let (one, other) = (row_of(case.one), row_of(case.other));
    let balance = one.balance(&other, &row_of(&[0, 1, 2]));
    let shared = (one.within(&other), one.count_and(&other) as usize);
    let highest = (one.highest(), one.highest_below(64));
    shared == (case.within, case.meet.len())
        && balance == case.balance
        && highest == (case.highest, case.below)
}

/// The first of the cases in which a call makes or tells something else.
fn wrong(cases: &[Case]) -> Option<usize> {
    for (place, case) in cases.iter().enumerate() {
        if !has_sets(case) || !has_numbers(case) {
            return Some(place);
        }
    }
    None
}

#[test]
fn sets(rt: HostRuntime) {
    assert_eq!(rt; wrong(CASES), None);
}

#[test]
fn places_taken_out(rt: HostRuntime) {
    let mut row = row_of(&[0, 5, 511]);
    row.clear(5);
    row.clear(6);
    assert!(rt; has_just(&row, &[0, 511]));
}

/// Sets, none of which is another one: some differ in place 0 alone, some in place 511 alone.
const SETS: &[&[u16]] = &[
    &[],
    &[0],
    &[511],
    &[0, 511],
    &[1, 64, 300],
    &[0, 1, 64, 300],
    &[1, 64, 300, 511],
];

/// The first of the sets whose row is said to be that of the set at a place where it isn't, or another one where it is.
fn mistaken_for(sets: &[&[u16]], place: usize, row: &Row) -> Option<usize> {
    for (other, places) in sets.iter().enumerate() {
        if row.same(&row_of(places)) != (other == place) {
            return Some(other);
        }
    }
    None
}

/// The first two of the sets of which so much is said wrongly.
fn mistaken(sets: &[&[u16]]) -> Option<(usize, usize)> {
    for (place, places) in sets.iter().enumerate() {
        if let Some(other) = mistaken_for(sets, place, &row_of(places)) {
            return Some((place, other));
        }
    }
    None
}

#[test]
fn the_same_and_others(rt: HostRuntime) {
    assert_eq!(rt; mistaken(SETS), None);
}

/// How many places a row of one place shares with each of two others, where it is looked for at that place alone.
fn shared_at(place: u16, one: &Row, other: &Row) -> (u32, u32)
    requires { place < 512 }
{
    let mut row = Row::empty();
    row.set(place);
    row.count_span(one, other, place, place + 1)
}

#[test]
fn shared_between_two_places(rt: HostRuntime) {
    let (one, other) = (row_of(&[0, 63, 64, 300]), row_of(&[63, 300, 511]));
    assert_eq!(rt; shared_at(0, &one, &other), (1, 0));
    assert_eq!(rt; shared_at(63, &one, &other), (1, 1));
    assert_eq!(rt; shared_at(64, &one, &other), (1, 0));
    assert_eq!(rt; shared_at(299, &one, &other), (0, 0));
    assert_eq!(rt; shared_at(511, &one, &other), (0, 1));
}
