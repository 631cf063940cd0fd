//! How a line spells the bytes of a text, one by one.
ghost use Rattle.std.specs.Prelude.{◌≡◌, ◌<◌, IfSome};
ghost use Rattle.zk_items.specs.Leaf as leaf;
ghost use Rattle.zk_items.specs.Odd as odd;

/// Whether `b` is plain, which a text needs no escape for: 20 to 7e, but for `"` and `\`.
pub fn is_plain(b: u8) -> bool
    ensures { result ≡ leaf.is_plain b }
{
    matches!(b, 32..=126) && b != b'"' && b != b'\\'
}

/// Whether a text needs an escape for `b`.
pub fn is_odd(b: u8) -> bool
    ensures { result ≡ odd.is_odd b }
{
    !is_plain(b)
}

/// The value of a lower-case hexadecimal digit; `None` if `c` is none.
pub fn hex_value(c: u8) -> Option<u8>
    ensures value { result ≡ leaf.hex_value c }
    ensures low { IfSome result (λ v. v < 16) }
{
    match c {
        b'0'..=b'9' => Some(c - b'0'),
        b'a'..=b'f' => Some(c - b'a' + 10),
        _ => None,
    }
}

/// The lower-case hexadecimal digit of a value below 16.
pub fn hex_digit(n: u8) -> u8
    requires { n < 16 }
    ensures { result ≡ leaf.hex_digit n }
{
    if n < 10 { b'0' + n } else { b'a' - 10 + n }
}
