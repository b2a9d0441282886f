// Readers over a slice and a place: bytes, names, texts. Each answers the place after what was read, or the byte at fault.
#![tactic(auto)]

ghost use Rattle.std.specs.Prelude.{◌≡◌, false, ◌≤◌, length};
ghost use Rattle.scope.specs.Frames.{byte, passing, within, times, text_from};
ghost use Rattle.fields.specs.Places.{said_read, said_at, read_at, letter_of, name_of, judged};

use cells::get;
use lengths::is_name_length;
use letters::{among, is_big, is_decimal, is_lower, is_small, is_upper};

// The place of the byte at fault.
#[derive(Clone, Copy, Debug, PartialEq, Eq)]
pub struct Fault {
    pub at: usize,
}

// One byte.
pub fn byte(bytes: &[u8], at: usize) -> Result<usize, Fault>
    requires { at ≤ length bytes.now }
    ensures { said_read result ≡ said_at bytes.now at byte }
{
    if at < bytes.len() {
        Ok(at + 1)
    } else {
        Err(Fault { at })
    }
}

// A byte from lo to hi.
pub fn within(bytes: &[u8], at: usize, lo: u8, hi: u8) -> Result<usize, Fault>
    requires { at ≤ length bytes.now }
    ensures { said_read result ≡ said_at bytes.now at (within lo hi) }
{
    if at < bytes.len() && among(lo, hi, bytes[at]) {
        Ok(at + 1)
    } else {
        Err(Fault { at })
    }
}

// n bytes.
pub fn skip(bytes: &[u8], at: usize, n: usize) -> Result<usize, Fault>
    requires { at ≤ length bytes.now }
    ensures { said_read result ≡ said_at bytes.now at (times n byte) }
{
    if n <= bytes.len() - at {
        Ok(at + n)
    } else {
        Err(Fault { at: bytes.len() })
    }
}

// Whether a byte may stand in a name: in a constructor's or in another's, first or later.
fn is_letter(b: u8, big: bool, first: bool) -> bool
    ensures { result ≡ letter_of big first b }
{
    match (big, first) {
        (true, true) => is_upper(b),
        (true, false) => is_big(b),
        (false, true) => is_lower(b),
        (false, false) => is_small(b),
    }
}

// n bytes of a name after its first.
fn letters(bytes: &[u8], at: usize, n: usize, big: bool) -> Result<usize, Fault>
    requires { at ≤ length bytes.now }
    ensures { result ≡ read_at bytes.now at (times n (passing (letter_of big false))) }
{
    for i in 0..n {
        if !is_letter(get(bytes, at + i), big, false) {
            return Err(Fault { at: at + i });
        }
    }
    Ok(at + n)
}

// A name: its length from 1 to 32, then its bytes.
pub fn name(bytes: &[u8], at: usize, big: bool) -> Result<usize, Fault>
    requires { at ≤ length bytes.now }
    ensures { said_read result ≡ said_at bytes.now at (name_of big) }
{
    let n = get(bytes, at);
    if !is_name_length(n) {
        return Err(Fault { at });
    }
    if !is_letter(get(bytes, at + 1), big, true) {
        return Err(Fault { at: at + 1 });
    }
    letters(bytes, at + 2, usize::from(n) - 1, big)
}

// A text: its length from lo to 64, then its bytes; decimal text is judged whole.
pub fn text(bytes: &[u8], at: usize, lo: u8, decimal: bool) -> Result<usize, Fault>
    requires { at ≤ length bytes.now }
    ensures { said_read result ≡ said_at bytes.now at (text_from lo (judged decimal)) }
{
    let from = within(bytes, at, lo, 64)?;
    let to = skip(bytes, from, usize::from(bytes[at]))?;
    if decimal && !is_decimal(&bytes[from..to]) {
        return Err(Fault { at: from });
    }
    Ok(to)
}
