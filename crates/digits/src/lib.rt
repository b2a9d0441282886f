// Digits: of a line of hexadecimal, and the first of a decimal number.
#![tactic(auto)]

ghost use Rattle.std.specs.Prelude.{◌≡◌, ◌&&◌, ◌||◌, leb};

// Whether a byte is one of 0 to 9 and a to f.
pub fn is_hex(d: u8) -> bool
    ensures { result ≡ ((leb 48 d && leb d 57) || (leb 97 d && leb d 102)) }
{
    matches!(d, b'0'..=b'9' | b'a'..=b'f')
}

// Whether a byte is one of 1 to 9.
pub fn is_leading(d: u8) -> bool
    ensures { result ≡ (leb 49 d && leb d 57) }
{
    matches!(d, b'1'..=b'9')
}
