// What suits a type, over numbers alone: the decisions of refusal 8.
#![tactic(auto)]

ghost use Rattle.std.specs.Prelude.{◌≡◌, ◌&&◌, ◌||◌, ◌-◌, leb, eqb};
ghost use Rattle.rules.specs.Kinds.{suits_kind};

use scope::kinds::{PatternKind, TypeKind};

// Does a pattern that begins with this byte suit a type of this kind, whatever it holds.
pub fn suits_kind(what: u8, kind: u8) -> bool
    ensures { result ≡ suits_kind what kind }
{
    let wanted = match PatternKind::try_from(what) {
        Ok(PatternKind::Discard) => return true,
        Ok(PatternKind::Variable) => return true,
        Ok(PatternKind::Assign) => return true,
        Ok(PatternKind::Integer) => TypeKind::Integer,
        Ok(PatternKind::ByteString) => TypeKind::ByteString,
        Ok(PatternKind::List) => TypeKind::List,
        Ok(PatternKind::Constructor) => TypeKind::Data,
        Ok(PatternKind::Pair) => TypeKind::Pair,
        Ok(PatternKind::Tuple) => TypeKind::Tuple,
        Err(_) => TypeKind::Tuple,
    };
    TypeKind::try_from(kind) == Ok(wanted)
}

// Are k arguments enough for n fields.
pub fn is_enough(k: usize, spread: bool, n: usize) -> bool
    ensures { result ≡ (eqb k n || (spread && leb k n)) }
{
    if spread { k <= n } else { k == n }
}

// How many wildcards fill n fields after k arguments.
pub fn wilds(k: usize, n: usize) -> usize
    ensures { result ≡ n - k }
{
    n.saturating_sub(k)
}
