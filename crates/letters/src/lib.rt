// Classes of bytes: ranges, letters, digits; and texts of digits.
#![tactic(auto)]

ghost use Rattle.std.specs.Prelude.{◌≡◌};
ghost use Rattle.scope.specs.Lists.{among, all};
ghost use Rattle.scope.specs.Frames.{is_upper, is_lower, is_digit, is_small, is_big, is_positive, is_decimal};
ghost use Rattle.letters.specs.Classes.{digit_of};

use digits::{is_hex, is_leading};

// Whether b is one of lo to hi.
pub fn among(lo: u8, hi: u8, b: u8) -> bool
    ensures { result ≡ among lo hi b }
{
    (lo..=hi).contains(&b)
}

// A to Z.
pub fn is_upper(b: u8) -> bool
    ensures { result ≡ is_upper b }
{
    b.is_ascii_uppercase()
}

// a to z.
pub fn is_lower(b: u8) -> bool
    ensures { result ≡ is_lower b }
{
    b.is_ascii_lowercase()
}

// 0 to 9.
pub fn is_digit(b: u8) -> bool
    ensures { result ≡ is_digit b }
{
    b.is_ascii_digit()
}

// a to z, digits or underscore.
#[tactic(auto, unfolding(scope::specs::Frames::is_small))]
pub fn is_small(b: u8) -> bool
    ensures { result ≡ is_small b }
{
    is_lower(b) || is_digit(b) || b == b'_'
}

// Letters, digits or underscore.
#[tactic(auto, unfolding(scope::specs::Frames::is_big))]
pub fn is_big(b: u8) -> bool
    ensures { result ≡ is_big b }
{
    is_upper(b) || is_small(b)
}

// A digit, decimal or hexadecimal.
#[tactic(auto, unfolding(scope::specs::Lines::is_hex))]
fn is_digit_of(hex: bool, b: u8) -> bool
    ensures { result ≡ digit_of hex b }
{
    if hex { is_hex(b) } else { is_digit(b) }
}

// Whether all bytes are digits, decimal or hexadecimal.
pub fn all_digits(hex: bool, t: &[u8]) -> bool
    ensures { result ≡ all (digit_of hex) t.now }
{
    t.iter().all(|&b| is_digit_of(hex, b))
}

// Digits of which the first is not 0.
fn is_positive(t: &[u8]) -> bool
    ensures { result ≡ is_positive t.now }
{
    match t {
        [] => false,
        [d, rest @ ..] => is_leading(*d) && all_digits(false, rest),
    }
}

// Decimal text: an optional minus and no needless zero.
#[tactic(auto, unfolding(scope::specs::Frames::is_decimal))]
pub fn is_decimal(t: &[u8]) -> bool
    ensures { result ≡ is_decimal t.now }
{
    match t {
        [b'-', rest @ ..] => is_positive(rest),
        b"0" => true,
        _ => is_positive(t),
    }
}
