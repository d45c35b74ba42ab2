//! Rows of places beside their words, written down by hand.

use crate::bits::row_of;
use sp_bits::Row;

/// Places, and the eight words of the row that has just these.
const CASES: &[(&[u16], [u64; 8])] = &[
    (&[], [0; 8]),
    (&[0], [1, 0, 0, 0, 0, 0, 0, 0]),
    (&[0, 1, 3, 63], [0x8000_0000_0000_000B, 0, 0, 0, 0, 0, 0, 0]),
    (
        &[64, 127, 128],
        [0, 0x8000_0000_0000_0001, 1, 0, 0, 0, 0, 0],
    ),
    (
        &[191, 192, 256, 330],
        [0, 0, 0x8000_0000_0000_0000, 1, 1, 1024, 0, 0],
    ),
    (
        &[384, 447, 448, 511],
        [
            0,
            0,
            0,
            0,
            0,
            0,
            0x8000_0000_0000_0001,
            0x8000_0000_0000_0001,
        ],
    ),
];

#[test]
fn words_of_places_and_places_of_words(rt: HostRuntime) {
    for (places, words) in CASES {
        let row = row_of(places);
        assert!(rt; row.words() == words.as_slice(), "words of {places:?}");
        let back = Row::from_words(words);
        assert!(rt;
            back.within(&row) && row.within(&back),
            "places of {words:?}"
        );
        assert!(rt; back.same(&row), "one row of {words:?}");
        assert_eq!(rt; back.count() as usize, places.len());
        assert_eq!(rt; back.highest(), places.last().copied());
    }
}
