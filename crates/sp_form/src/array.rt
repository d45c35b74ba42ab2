//! Fields as arrays.

ghost use Rattle.std.specs.Prelude.{◌≡◌, length};

/// The bytes of a field of known width, copied.
pub fn array_of<const N: usize>(field: &[u8]) -> [u8; N]
    requires { length field.now ≡ N }
    ensures { result ≡ field.now }
{
    let mut bytes = [0; N];
    bytes.copy_from_slice(field);
    bytes
}
