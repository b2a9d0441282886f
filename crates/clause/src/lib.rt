// What a clause's frame holds: patterns as written, each followed by its inner ones.
#![tactic(auto)]

ghost use Rattle.std.specs.Prelude.{◌≡◌, ◌+◌, ◌*◌, ◌≤◌, ◌<◌, ◌^◌, length, get_or};
ghost use Rattle.scope.specs.Frames.{pattern_kinds, pattern, patterns};
ghost use Rattle.fields.specs.Places.{said_read, said_at, read_at};
ghost use Rattle.clause.specs.Written.{flagged, nothing, said_pattern, said_pattern_at, pattern_at, leaving, leaves};

use cells::get;
use fields::{Fault, byte, name, skip, text, within};
use scope::kinds::PatternKind;

// A pattern as written: the place after it, and how many patterns follow it.
#[derive(Clone, Copy, Debug, PartialEq, Eq)]
pub struct Pattern {
    pub next: usize,
    pub inner: usize,
}

// What was read leaves `inner` patterns to be read.
fn leaving(r: Result<usize, Fault>, inner: usize) -> Result<Pattern, Fault>
    ensures { result ≡ leaving inner r }
{
    r.map(|next| Pattern { next, inner })
}

// n bytes, then 00 or 01.
fn flagged(bytes: &[u8], at: usize, n: usize) -> Result<usize, Fault>
    requires { at ≤ length bytes.now }
    ensures { result ≡ read_at bytes.now at (flagged n) }
{
    let from = skip(bytes, at, n)?;
    within(bytes, from, 0, 1)
}

// A list: element count, tail 00 or 01.
fn list_pattern(bytes: &[u8], at: usize) -> Result<Pattern, Fault>
    requires { at ≤ length bytes.now }
    ensures value { result ≡ pattern_at bytes.now at (get_or pattern_kinds 5 nothing) }
    ensures result_bound { leaves result ≤ 256 }
{
    let r = flagged(bytes, at, 1);
    leaving(
        r,
        usize::from(get(bytes, at)) + usize::from(get(bytes, at + 1)),
    )
}

// A constructor: number, argument count, spread 00 or 01.
fn constructor_pattern(bytes: &[u8], at: usize) -> Result<Pattern, Fault>
    requires { at ≤ length bytes.now }
    ensures value { result ≡ pattern_at bytes.now at (get_or pattern_kinds 6 nothing) }
    ensures result_bound { leaves result ≤ 256 }
{
    let r = flagged(bytes, at, 2);
    leaving(r, usize::from(get(bytes, at + 1)))
}

// A tuple: its count.
fn tuple_pattern(bytes: &[u8], at: usize) -> Result<Pattern, Fault>
    requires { at ≤ length bytes.now }
    ensures value { result ≡ pattern_at bytes.now at (get_or pattern_kinds 8 nothing) }
    ensures result_bound { leaves result ≤ 256 }
{
    let r = byte(bytes, at);
    leaving(r, usize::from(get(bytes, at)))
}

// One pattern as written, without its inner ones.
pub fn one_pattern(bytes: &[u8], at: usize) -> Result<Pattern, Fault>
    requires { at ≤ length bytes.now }
    ensures result_value { said_pattern result ≡ said_pattern_at bytes.now at pattern }
    ensures result_bound { leaves result ≤ 256 }
{
    if bytes.len() <= at {
        return Err(Fault { at });
    }
    let from = at + 1;
    match PatternKind::try_from(bytes[at]) {
        Ok(PatternKind::Discard) => Ok(Pattern {
            next: from,
            inner: 0,
        }),
        Ok(PatternKind::Variable) => leaving(name(bytes, from, false), 0),
        Ok(PatternKind::Assign) => leaving(name(bytes, from, false), 1),
        Ok(PatternKind::Integer) => leaving(text(bytes, from, 1, true), 0),
        Ok(PatternKind::ByteString) => leaving(text(bytes, from, 0, false), 0),
        Ok(PatternKind::List) => list_pattern(bytes, from),
        Ok(PatternKind::Constructor) => constructor_pattern(bytes, from),
        Ok(PatternKind::Pair) => Ok(Pattern {
            next: from,
            inner: 2,
        }),
        Ok(PatternKind::Tuple) => tuple_pattern(bytes, from),
        Err(_) => Err(Fault { at }),
    }
}

// n patterns, each followed by its inner ones: how many are left changes with each, so no range counts them.
pub fn patterns(bytes: &[u8], at: usize, n: usize) -> Result<usize, Fault>
    requires at_in_bounds { at ≤ length bytes.now }
    requires bytes_bound { n + 256 * length bytes.now < 2 ^ 64 }
    ensures { said_read result ≡ said_at bytes.now at (patterns n) }
{
    let mut p = at;
    let mut left = n;
    while 0 < left {
        let Pattern { next, inner } = one_pattern(bytes, p)?;
        p = next;
        left = left - 1 + inner;
    }
    Ok(p)
}
