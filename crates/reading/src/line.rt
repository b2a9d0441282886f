// One line's bytes: its tests (4, 5, 6), then what the frame adds: 7, 8, 9.

ghost use Rattle.std.specs.Prelude.{◌≡◌, ◌+◌, ◌-◌, ◌≤◌, ◌<◌, ◌^◌, length, get_or, drop};
ghost use Rattle.scope.specs.Blocks as scope;
ghost use Rattle.scope.specs.Blocks.{framed};
ghost use Rattle.order.specs.Phases.{Numbers};
ghost use Rattle.reading.specs.Said.{held_in, Known, Says, said_step, Stepped};
ghost use Rattle.reading.specs.Enters.{CtorEnters, EntersSubject, EntersClause, OneMore, ForClause};

use cells::{get, low};
use frames::admitting::kind_of;
use fresh::is_fresh;
use layout::lent::Types;
use layout::tables::{Rows, Tables};
use order::{CLAUSES, CLOSED, State, has_nodes};
use patterns::simplify;
use scope::kinds::FrameKind;
use scope::refusal::Refusal;
use sound::is_sound;
use table::{add_ctor, add_type};

// The numbers after the subject, which is type t.
fn after_subject(s: State, t: usize) -> State
    ensures { Numbers result 2 s.types s.ctors s.fields t }
{
    State {
        phase: CLAUSES,
        subject: t,
        clauses: 0,
        used: 0,
        count: 0,
        ..s
    }
}

// The numbers after a clause of n nodes.
fn after_clause(s: State, n: usize) -> State
    requires clauses_bound { s.clauses < 64 }
    requires n_bound { s.used + n < 4160 }
    requires n_bound_2 { s.count + n ≤ 4096 }
    ensures { OneMore s n result }
{
    State {
        phase: CLAUSES,
        clauses: s.clauses + 1,
        used: s.used + n + 1,
        count: s.count + n,
        ..s
    }
}

// 02 constructor of the type just above.
fn enter_ctor(bytes: &[u8], at: usize, s: State, t: &mut Tables) -> Result<State, Refusal>
    requires at_bound { at < 2 ^ 32 }
    requires types_nonzero { 0 < s.types }
    requires types_bound { s.types ≤ 64 }
    requires ctors_bound { s.ctors < 2 ^ 32 }
    requires fields_bound { s.fields < 2 ^ 32 }
    requires types_bound_2 { get_or t.old.counts (s.types - 1) 0 < 32 }
    ensures { CtorEnters bytes.now at s t.old t.new result }
{
    if !is_fresh(&t.lend(bytes), at, s.types - 1) {
        return Err(Refusal::Table);
    }
    Ok(add_ctor(bytes, at, s, t))
}

// 03 subject.
fn enter_subject(types: &Types<'_>, at: usize, s: State) -> Result<State, Refusal>
    requires { s.types ≤ 64 }
    ensures { EntersSubject types.now.bytes.now at s types.now.kinds.now types.now.counts.now types.now.arities.now types.now.starts.now types.now.fields.now result }
{
    let t = usize::from(get(types.bytes, at));
    if !is_sound(types, s.fields, s.types, t) {
        return Err(Refusal::Table);
    }
    Ok(after_subject(s, t))
}

// 04 clause.
fn enter_clause(types: &Types<'_>, at: usize, s: State, rows: &mut Rows) -> Result<State, Refusal>
    requires { ForClause types.now.bytes.now at s types.now.fields.now rows.old.nodes }
    ensures { EntersClause types.now.bytes.now at s types.now.kinds.now types.now.counts.now types.now.arities.now types.now.starts.now types.now.fields.now rows.old.nodes rows.old.left rows.old.starts rows.new.nodes rows.new.left rows.new.starts result }
{
    let mut stack = [0u16; 1920];
    let count = simplify(
        types,
        at,
        s.subject,
        &mut stack,
        &mut rows.nodes,
        &mut rows.left,
        s.used,
    )?;
    if !has_nodes(s.count, count) {
        return Err(Refusal::Nodes);
    }
    let end = s.used + count;
    rows.nodes[end] = 0;
    rows.left[end] = 0;
    rows.starts[s.clauses] = low(s.used);
    Ok(after_clause(s, count))
}

// How many constructors the last type has.
fn last_ctors(counts: &[u8; 64], types: usize) -> usize
    ensures { 0 < types → result ≡ get_or counts.now (types - 1) 0 }
{
    if types == 0 {
        return 0;
    }
    usize::from(get(counts, types - 1))
}

// A line's bytes, which stand from `at` to the end.
pub fn enter_line(
    bytes: &[u8],
    at: usize,
    s: State,
    t: &mut Tables,
    rows: &mut Rows,
) -> Result<State, Refusal>
    requires known { Known (held_in bytes.now t.old rows.old) s }
    requires at_in_bounds { at < length bytes.now }
    requires bytes_len_bound { length bytes.now ≤ 24576 }
    requires bytes_len_bound_2 { length bytes.now ≤ at + 640 }
    ensures { (σ : scope.State) → Says (held_in bytes.now t.old rows.old) s σ → Stepped (held_in bytes.now t.new rows.new) (said_step result) (framed σ (drop at bytes.now)) }
{
    let kind = kind_of(bytes, at, s, last_ctors(&t.counts, s.types))?;
    let from = at + 1;
    match kind {
        FrameKind::TypeFrame => Ok(add_type(bytes, from, s, t)),
        FrameKind::ConstructorFrame => enter_ctor(bytes, from, s, t),
        FrameKind::SubjectFrame => enter_subject(&t.lend(bytes), from, s),
        FrameKind::ClauseFrame => enter_clause(&t.lend(bytes), from, s, rows),
        FrameKind::EndFrame => Ok(State { phase: CLOSED, ..s }),
    }
}
