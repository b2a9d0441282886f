// The type table. Constructor c of type t has the number 32 t + c; its fields are consecutive in `fields`, from `starts` on.
#![tactic(auto)]

ghost use Rattle.std.specs.Prelude.{◌≡◌, map, cond, ◌+◌, ◌-◌, ◌*◌, ◌<◌, ◌≤◌, ◌^◌, eqb, length, get_or, replicate};
ghost use Rattle.std.proofs.lemmas.List.Edits.{sets};
ghost use Rattle.layout.specs.Places.{places, labelled, reads};
ghost use Rattle.order.specs.Phases.{Numbers};
ghost use Rattle.table.specs.Build.{low, type_arities, type_fields, TypeEntered, flag_at, arity_in, field_places, labels_with, CtorEntered};

use cells::{get, low, put};
use layout::after_name;
use layout::tables::Tables;
use order::{State, start};
use scope::kinds::TypeKind;

// The arities of the built-in constructors of a list: "::" with 2, "[]" with 0.
pub const BUILT_IN: [u8; 2] = [2, 0];

// n field types, from `at` on, written to `fields` from `from` on; the place after them.
fn put_fields(bytes: &[u8], at: usize, n: usize, fields: &mut [u8], from: usize) -> usize
    requires n_bound { at + n < 2 ^ 63 }
    requires n_bound_2 { from + n < 2 ^ 63 }
    ensures value { result ≡ from + n }
    ensures fields_after { fields.new ≡ sets fields.old from (reads bytes.now (places at n)) }
{
    for k in 0..n {
        put(fields, from + k, get(bytes, at + k));
    }
    from + n
}

// The arities of the constructors that a type has before any is declared, from number i on; how many they are.
#[tactic(auto, using(crate::proofs::Stores::part_stored), unfolding(crate::specs::Build::type_arities))]
fn put_arities(bytes: &[u8], at: usize, arities: &mut [u8; 2048], i: usize) -> u8
    requires at_bound { at < 2 ^ 32 }
    requires i_bound { i + 2 ≤ 2048 }
    ensures value { result ≡ length (type_arities bytes.now at) }
    ensures few { result ≤ 2 }
    ensures arities_after { arities.new ≡ sets arities.old i (type_arities bytes.now at) }
{
    match TypeKind::try_from(get(bytes, at)) {
        Ok(TypeKind::List) => {
            arities[i..i + 2].copy_from_slice(&BUILT_IN);
            2
        }
        Ok(TypeKind::Tuple) => {
            arities[i] = get(bytes, at + 1);
            1
        }
        Ok(TypeKind::Pair) => {
            arities[i] = 2;
            1
        }
        _ => 0,
    }
}

// The fields of those constructors, of the type t, written from `from` on; the place after them.
#[tactic(auto, using(crate::proofs::Stores::length_reads), unfolding(crate::specs::Build::type_fields))]
fn put_types(bytes: &[u8], at: usize, t: usize, fields: &mut [u8; 5120], from: usize) -> usize
    requires at_bound { at < 2 ^ 32 }
    requires t_bound { t < 64 }
    requires from_bound { from < 2 ^ 32 }
    ensures value { result ≡ from + length (type_fields bytes.now at t) }
    ensures fields_after { fields.new ≡ sets fields.old from (type_fields bytes.now at t) }
{
    match TypeKind::try_from(get(bytes, at)) {
        Ok(TypeKind::List) => {
            put(fields, from, get(bytes, at + 1));
            put(fields, from + 1, t as u8)
        }
        Ok(TypeKind::Tuple) => {
            put_fields(bytes, at + 2, usize::from(get(bytes, at + 1)), fields, from)
        }
        Ok(TypeKind::Pair) => put_fields(bytes, at + 1, 2, fields, from),
        _ => from,
    }
}

// The numbers after a type of this kind whose fields end at `end`; only a data type's constructors may follow.
fn after_type(s: State, kind: u8, end: usize) -> State
    requires { s.types < 64 }
    ensures { Numbers result (cond (eqb kind 6) 1 0) (s.types + 1) s.ctors end 0 }
{
    let phase = match TypeKind::try_from(kind) {
        Ok(TypeKind::Data) => 1,
        _ => 0,
    };
    State {
        phase,
        types: s.types + 1,
        ctors: s.ctors,
        fields: end,
        ..start()
    }
}

// One more type: its frame's bytes from the kind of type on.
pub fn add_type(bytes: &[u8], at: usize, s: State, t: &mut Tables) -> State
    requires at_bound { at < 2 ^ 32 }
    requires types_bound { s.types < 64 }
    requires fields_bound { s.fields < 2 ^ 32 }
    ensures { TypeEntered bytes.now at s t.old t.new result }
{
    let kind = get(bytes, at);
    let i = 32 * s.types;
    let n = put_arities(bytes, at, &mut t.arities, i);
    let end = put_types(bytes, at, s.types, &mut t.fields, s.fields);
    t.kinds[s.types] = kind;
    t.counts[s.types] = n;
    t.starts[i..i + usize::from(n)].fill(low(s.fields));
    after_type(s, kind, end)
}

// n fields with labels, from `at` on: their types, written to `fields` from `from` on, and the places of their labels, to `labels`.
fn put_labelled(
    bytes: &[u8],
    at: usize,
    n: usize,
    fields: &mut [u8; 5120],
    labels: &mut [u16; 5120],
    from: usize,
)
    requires at_bound { at < 2 ^ 33 }
    requires n_bound { n < 256 }
    requires from_bound { from < 2 ^ 32 }
    ensures fields_after { fields.new ≡ sets fields.old from (reads bytes.now (labelled bytes.now at n)) }
    ensures labels_after { labels.new ≡ sets labels.old from (map (λ p. low (p + 1)) (labelled bytes.now at n)) }
{
    let mut p = at;
    for k in 0..n {
        put(fields, from + k, get(bytes, p));
        put(labels, from + k, low(p + 1));
        p = after_name(bytes, p + 1);
    }
}

// A constructor's fields, from its name's length on, written from `from` on; how many they are.
#[tactic(auto, unfolding(crate::specs::Build::field_places, crate::specs::Build::labels_with))]
fn put_parts(
    bytes: &[u8],
    at: usize,
    fields: &mut [u8; 5120],
    labels: &mut [u16; 5120],
    from: usize,
) -> u8
    requires at_bound { at < 2 ^ 32 }
    requires from_bound { from < 2 ^ 32 }
    ensures value { result ≡ arity_in bytes.now at }
    ensures fields_after { fields.new ≡ sets fields.old from (reads bytes.now (field_places bytes.now (flag_at bytes.now at) (arity_in bytes.now at))) }
    ensures labels_after { labels.new ≡ labels_with bytes.now (flag_at bytes.now at) (arity_in bytes.now at) from labels.old }
{
    let flag = after_name(bytes, at);
    let n = get(bytes, flag + 1);
    if get(bytes, flag) == 0 {
        put_fields(bytes, flag + 2, usize::from(n), fields, from);
    } else {
        put_labelled(bytes, flag + 2, usize::from(n), fields, labels, from);
    }
    n
}

// The numbers after a constructor with n fields.
fn after_ctor(s: State, n: usize) -> State
    requires ctors_bound { s.ctors < 2 ^ 32 }
    requires fields_bound { s.fields < 2 ^ 32 }
    requires n_bound { n < 256 }
    ensures { Numbers result 1 s.types (s.ctors + 1) (s.fields + n) 0 }
{
    State {
        phase: 1,
        types: s.types,
        ctors: s.ctors + 1,
        fields: s.fields + n,
        ..start()
    }
}

// One more constructor of the last type: its frame's bytes from the name's length on.
pub fn add_ctor(bytes: &[u8], at: usize, s: State, t: &mut Tables) -> State
    requires at_bound { at < 2 ^ 32 }
    requires types_nonzero { 0 < s.types }
    requires types_bound { s.types ≤ 64 }
    requires ctors_bound { s.ctors < 2 ^ 32 }
    requires fields_bound { s.fields < 2 ^ 32 }
    requires types_bound_2 { get_or t.old.counts (s.types - 1) 0 < 32 }
    ensures { CtorEntered bytes.now at s t.old t.new result }
{
    let last = s.types - 1;
    let c = t.counts[last];
    let n = put_parts(bytes, at, &mut t.fields, &mut t.labels, s.fields);
    let i = 32 * last + usize::from(c);
    t.counts[last] = c + 1;
    t.arities[i] = n;
    t.starts[i] = low(s.fields);
    t.names[i] = low(at);
    after_ctor(s, usize::from(n))
}
