// Whether the pattern at a place suits a type, and what it becomes there: refusal 8.
#![tactic(auto)]

ghost use Rattle.std.specs.Prelude.{◌≡◌, ◌<◌};
ghost use Rattle.scope.specs.declared.refusal.Refusal.TheVariants as refusal;
ghost use Rattle.nodes.specs.Keys.{literal_key};
ghost use Rattle.suits.specs.Suits.{filled_by, args_of, suit_at, Few};

use cells::{get, low};
use heads::{LITERALS, WILDCARD};
use layout::lent::Types;
use rules::{is_enough, suits_kind, wilds};
use scope::kinds::PatternKind;
use scope::refusal::Refusal;

// A pattern that does not suit its type.
#[derive(Clone, Copy, Debug, PartialEq, Eq)]
pub struct Unsuited;

impl From<Unsuited> for Refusal {
    ghost from_gives = { λ u r. r ≡ refusal.Suit };

    fn from(_: Unsuited) -> Refusal {
        Refusal::Suit
    }
}

// What the pattern at a place becomes, read at a type.
#[derive(Clone, Copy, Debug, PartialEq, Eq)]
pub enum Suit {
    // one node
    Leaf { node: u16 },
    // the pattern after it, at the same type
    Again,
    // a list's elements and its tail or its end
    Cells { more: usize, tail: bool },
    // a constructor, its arguments and wildcards
    Args { c: usize, more: usize, wilds: usize },
}

// Constructor c with k of its n arguments.
fn filled(c: usize, k: usize, spread: bool, n: usize) -> Result<Suit, Unsuited>
    requires { (c < 256) × (k < 256) × (n < 256) }
    ensures filled { result ≡ filled_by c k spread n }
    ensures few { Few result }
{
    if !is_enough(k, spread, n) {
        return Err(Unsuited);
    }
    Ok(Suit::Args {
        c,
        more: k,
        wilds: wilds(k, n),
    })
}

// Constructor c of type t with k arguments.
fn args(types: &Types<'_>, t: usize, c: usize, k: usize, spread: bool) -> Result<Suit, Unsuited>
    requires { (t < 16384) × (c < 256) × (k < 256) }
    ensures args { result ≡ args_of types.now.counts.now types.now.arities.now t c k spread }
    ensures few { Few result }
{
    if types.count(t) <= c {
        return Err(Unsuited);
    }
    filled(c, k, spread, usize::from(get(types.arities, 32 * t + c)))
}

// The node of the literal at `at`.
fn literal(at: usize) -> u16
    requires { at < 65536 }
    ensures { result ≡ literal_key at }
{
    LITERALS + low(at) % LITERALS
}

// The pattern at `at`, read at type t.
pub fn suits(types: &Types<'_>, at: usize, t: usize) -> Result<Suit, Unsuited>
    requires { (at < 65536) × (t < 16384) }
    ensures suits { result ≡ suit_at types.now.bytes.now at types.now.kinds.now types.now.counts.now types.now.arities.now t }
    ensures few { Few result }
{
    let what = get(types.bytes, at);
    if !suits_kind(what, types.kind(t)) {
        return Err(Unsuited);
    }
    let a = usize::from(get(types.bytes, at + 1));
    let b = get(types.bytes, at + 2);
    match PatternKind::try_from(what) {
        Ok(PatternKind::Discard) => Ok(Suit::Leaf { node: WILDCARD }),
        Ok(PatternKind::Variable) => Ok(Suit::Leaf { node: WILDCARD }),
        Ok(PatternKind::Assign) => Ok(Suit::Again),
        Ok(PatternKind::Integer) => Ok(Suit::Leaf { node: literal(at) }),
        Ok(PatternKind::ByteString) => Ok(Suit::Leaf { node: literal(at) }),
        Ok(PatternKind::List) => Ok(Suit::Cells {
            more: a,
            tail: b == 1,
        }),
        Ok(PatternKind::Constructor) => {
            args(types, t, a, usize::from(b), get(types.bytes, at + 3) == 1)
        }
        Ok(PatternKind::Pair) => args(types, t, 0, 2, false),
        Ok(PatternKind::Tuple) => args(types, t, 0, a, false),
        Err(_) => args(types, t, 0, a, false),
    }
}
