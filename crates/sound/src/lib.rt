// References to no type, and types without a finite value: refusal 7 at the subject's line.
#![tactic(auto)]

ghost use Rattle.std.specs.Prelude.{◌≡◌, map, ◌*◌, ◌<◌, ◌≤◌, get_or, ltb};
ghost use Rattle.scope.specs.Lists.{all, any};
ghost use Rattle.scope.specs.Finite.{is_known};
ghost use Rattle.layout.specs.Places.{places, reads};
ghost use Rattle.sound.specs.Sound.{flags, fields_known, value_in, all_finite_in, is_sound_in};

use cells::get;
use layout::lent::Types;
use scope::kinds::TypeKind;

// Whether each of the first n fields is a reference to one of the first `count` types.
fn refs_good(types: &Types<'_>, n: usize, count: usize) -> bool
    ensures { result ≡ all (λ f. ltb f count) (reads types.now.fields.now (places 0 n)) }
{
    (0..n).all(|i| types.field(i) < count)
}

// Whether the type t has a value, as far as is known.
fn is_known(known: &[bool; 64], t: usize) -> bool
    ensures { result ≡ is_known known.now t }
{
    known.get(t) == Some(&true)
}

// Whether every field of constructor i has a value, as far as is known.
fn all_known(types: &Types<'_>, i: usize, known: &[bool; 64]) -> bool
    ensures { result ≡ fields_known types.now.arities.now types.now.starts.now types.now.fields.now known.now i }
{
    let from = usize::from(get(types.starts, i));
    let n = usize::from(get(types.arities, i));
    (from..from + n).all(|f| is_known(known, types.field(f)))
}

// Whether some constructor of the type t has a value in every field.
fn some_ctor(types: &Types<'_>, t: usize, known: &[bool; 64]) -> bool
    requires { t < 64 }
    ensures { result ≡ any (fields_known types.now.arities.now types.now.starts.now types.now.fields.now known.now) (places (32 * t) (get_or types.now.counts.now t 0)) }
{
    let first = 32 * t;
    let n = usize::from(get(types.counts, t));
    (first..first + n).any(|i| all_known(types, i, known))
}

// Whether the type t has a finite value, by what is known of the others.
#[tactic(auto, unfolding(crate::specs::Sound::value_in))]
fn has_value(types: &Types<'_>, t: usize, known: &[bool; 64]) -> bool
    requires { t < 64 }
    ensures { result ≡ value_in types.now.kinds.now types.now.counts.now types.now.arities.now types.now.starts.now types.now.fields.now known.now t }
{
    match TypeKind::try_from(types.kind(t)) {
        Ok(TypeKind::Integer | TypeKind::ByteString | TypeKind::Opaque | TypeKind::List) => true,
        _ => some_ctor(types, t, known),
    }
}

// One round over the first n types.
fn round(types: &Types<'_>, n: usize, known: &[bool; 64]) -> [bool; 64]
    requires { n ≤ 64 }
    ensures { result ≡ flags (map (value_in types.now.kinds.now types.now.counts.now types.now.arities.now types.now.starts.now types.now.fields.now known.now) (places 0 n)) }
{
    let mut next = [false; 64];
    for t in 0..n {
        next[t] = has_value(types, t, known);
    }
    next
}

// Whether each of the first n types has a finite value: a round for each, and one that looks.
fn all_finite(types: &Types<'_>, n: usize) -> bool
    requires { n ≤ 64 }
    ensures { result ≡ all_finite_in types.now.kinds.now types.now.counts.now types.now.arities.now types.now.starts.now types.now.fields.now n }
{
    let mut known = [false; 64];
    for _ in 0..n {
        known = round(types, n, &known);
    }
    (0..n).all(|t| has_value(types, t, &known))
}

// Whether the subject and the first `used` fields are references to the first `count` types, and each of these has a finite value.
#[tactic(auto, unfolding(crate::specs::Sound::is_sound_in))]
pub fn is_sound(types: &Types<'_>, used: usize, count: usize, subject: usize) -> bool
    requires { count ≤ 64 }
    ensures { result ≡ is_sound_in types.now.kinds.now types.now.counts.now types.now.arities.now types.now.starts.now types.now.fields.now used count subject }
{
    subject < count && refs_good(types, used, count) && all_finite(types, count)
}
