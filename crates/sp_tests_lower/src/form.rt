//! One slice, taken field by field.

use sp_form::{Fields, array_of};

/// How many bytes are asked for, those that are taken, and those that are left.
type Take = (usize, Option<&'static [u8]>, &'static [u8]);

/// What is taken of `abcde`, one after another.
const TAKES: &[Take] = &[
    (2, Some(b"ab"), b"cde"),
    (4, None, b"cde"),
    (0, Some(b""), b"cde"),
    (3, Some(b"cde"), b""),
    (1, None, b""),
];

#[test]
fn fields_are_taken_from_the_front(rt: HostRuntime) {
    let mut fields = Fields::of(b"abcde");
    for (width, taken, left) in TAKES {
        let field = fields.take(*width);
        assert_eq!(rt; (field, fields.rest()), (*taken, *left));
        let size = (fields.len(), fields.is_empty());
        assert_eq!(rt; size, (left.len(), left.is_empty()));
    }
}

#[test]
fn arrays(rt: HostRuntime) {
    let field: [u8; 3] = array_of(b"abc");
    assert_eq!(rt; field, *b"abc");
}
