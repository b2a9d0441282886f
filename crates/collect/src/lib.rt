// `collect_missing_patterns`. The walk carries the path from the root, and a leaf writes its rows out.
#![tactic(auto)]

ghost use Rattle.std.specs.Prelude.{◌≡◌, ℕ, ◌+◌, ◌-◌, ◌≤◌, ◌<◌, map, take};
ghost use Rattle.scope.specs.Walks.{turned};
ghost use Rattle.walks.specs.Walks.{missing_by, missing_of, gather_from};
ghost use Rattle.matrix.specs.Numbers.{ar_of, matrix};
ghost use Rattle.matrix.specs.Places.{head_at, Listed};
ghost use Rattle.paths.specs.Path.{under, path_of};
ghost use Rattle.collect.specs.Ready.{Trail, Opened, Held, Sought};

use ctors::{Ctors, collect_ctors};
use layout::lent::Block;
use matrix::{arity, copy, specialize};
use outcomes::{Seek, Spelt, TooMuch, counted, over};
use paths::{Steps, put_rows};

// Nothing to do: each arity is a byte, which a proof knows of a slice that a function takes, and not of one in a struct.
fn low(arities: &[u8])
    ensures { (h : ℕ) → ar_of arities.now h ≤ 255 }
{}

// The walk into the matrix specialised by key; the path has the step to it already.
#[cycle(aside_collect_missing_patterns_each_into)]
fn into(
    b: &Block<'_>,
    n: usize,
    key: u16,
    s: &mut [u16],
    rows: usize,
    steps: &mut Steps,
    depth: usize,
    out: &mut [u16; 4096],
    at: Seek,
    room: usize,
) -> Result<Seek, TooMuch>
    requires held { Held b.now.nodes.now b.now.left.now b.now.types.counts.now b.now.types.arities.now n s.old rows room }
    requires trail { Trail steps.old.nodes steps.old.sets depth room at.written at.rows }
    requires depth_nonzero { 0 < depth }
    ensures { Sought s.old rows s.new steps.old steps.new depth out.old out.new at room result (turned (under b.now.types.arities.now (path_of steps.old.nodes steps.old.sets depth)) (missing_by b.now.types.bytes.now b.now.types.counts.now b.now.types.arities.now (missing_of b.now.types.bytes.now b.now.types.counts.now b.now.types.arities.now) (n - 1) (matrix b.now.nodes.now b.now.left.now n (take rows s.old)) key)) }
{
    if s.len() < rows + rows {
        return aside(b, n, key, s, rows, steps, depth, out, at, room);
    }
    let k = specialize(b, n, key, s, rows);
    low(b.types.arities);
    let a = arity(b.types.arities, key);
    collect_missing_patterns(b, n - 1 + a, &mut s[rows..], k, steps, depth, out, at, room)
}

// The same where the scratch is short: there is still less room, and the rest of the walk stands in a scratch of its own.
#[cycle(aside_collect_missing_patterns_each_into)]
fn aside(
    b: &Block<'_>,
    n: usize,
    key: u16,
    s: &[u16],
    rows: usize,
    steps: &mut Steps,
    depth: usize,
    out: &mut [u16; 4096],
    at: Seek,
    room: usize,
) -> Result<Seek, TooMuch>
    requires held { Held b.now.nodes.now b.now.left.now b.now.types.counts.now b.now.types.arities.now n s.now rows room }
    requires trail { Trail steps.old.nodes steps.old.sets depth room at.written at.rows }
    requires depth_nonzero { (0 < depth) × (room ≤ 64) }
    ensures { Sought s.now rows s.now steps.old steps.new depth out.old out.new at room result (turned (under b.now.types.arities.now (path_of steps.old.nodes steps.old.sets depth)) (missing_by b.now.types.bytes.now b.now.types.counts.now b.now.types.arities.now (missing_of b.now.types.bytes.now b.now.types.counts.now b.now.types.arities.now) (n - 1) (matrix b.now.nodes.now b.now.left.now n (take rows s.now)) key)) }
{
    let mut t = [0u16; 128];
    copy(s, rows, &mut t);
    into(b, n, key, &mut t, rows, steps, depth, out, at, room)
}

// The walks into the constructors key, key + 1, .., more of them.
#[cycle(aside_collect_missing_patterns_each_into)]
fn each(
    b: &Block<'_>,
    n: usize,
    key: u16,
    more: usize,
    s: &mut [u16],
    rows: usize,
    steps: &mut Steps,
    depth: usize,
    out: &mut [u16; 4096],
    mut at: Seek,
    room: usize,
) -> Result<Seek, TooMuch>
    requires held { Held b.now.nodes.now b.now.left.now b.now.types.counts.now b.now.types.arities.now n s.old rows room }
    requires trail { Trail steps.old.nodes steps.old.sets depth (room + 1) at.written at.rows }
    requires listed { Listed (map (head_at b.now.nodes.now b.now.left.now n) (take rows s.old)) key more }
    requires low { (h : ℕ) → ar_of b.now.types.arities.now h ≤ 255 }
    requires calls_bound { (at.calls ≤ 65536) × (0 < key) × (key + more < 65504) }
    ensures { Sought s.old rows s.new steps.old steps.new depth out.old out.new at room result (turned (under b.now.types.arities.now (path_of steps.old.nodes steps.old.sets depth)) (gather_from (missing_by b.now.types.bytes.now b.now.types.counts.now b.now.types.arities.now (missing_of b.now.types.bytes.now b.now.types.counts.now b.now.types.arities.now) (n - 1) (matrix b.now.nodes.now b.now.left.now n (take rows s.old))) key more)) }
{
    for c in 0..more {
        let k = key + c as u16;
        steps.nodes[depth] = k;
        steps.sets[depth] = 0;
        at = into(b, n, k, s, rows, steps, depth + 1, out, at, room)?;
    }
    Ok(at)
}

// The rows that are missing from the rows s[0..rows] of n patterns, each behind the path.
#[cycle(aside_collect_missing_patterns_each_into)]
pub fn collect_missing_patterns(
    b: &Block<'_>,
    n: usize,
    s: &mut [u16],
    rows: usize,
    steps: &mut Steps,
    depth: usize,
    out: &mut [u16; 4096],
    at: Seek,
    room: usize,
) -> Result<Seek, TooMuch>
    requires opened { Opened b.now.nodes.now b.now.left.now b.now.types.counts.now b.now.types.arities.now n s.old rows room }
    requires trail { Trail steps.old.nodes steps.old.sets depth room at.written at.rows }
    requires n_nonzero { 0 < depth + n }
    ensures { Sought s.old rows s.new steps.old steps.new depth out.old out.new at room result (turned (under b.now.types.arities.now (path_of steps.old.nodes steps.old.sets depth)) (missing_of b.now.types.bytes.now b.now.types.counts.now b.now.types.arities.now n (matrix b.now.nodes.now b.now.left.now n (take rows s.old)))) }
{
    low(b.types.arities);
    let cells = rows * n;
    if over(at.calls, cells, room) {
        return Err(TooMuch);
    }
    if rows == 0 {
        let before = Spelt {
            written: at.written,
            rows: at.rows,
        };
        let r = put_rows(
            b.types.arities,
            &mut steps.nodes,
            &steps.sets,
            depth,
            depth,
            n,
            out,
            before,
        );
        return counted(r, at.calls);
    }
    let called = Seek {
        calls: at.calls + 1,
        ..at
    };
    if n == 0 {
        return Ok(called);
    }
    match collect_ctors(b, &s[..rows], n) {
        Ctors::Complete { first, count } => {
            each(
                b,
                n,
                first,
                count,
                s,
                rows,
                steps,
                depth,
                out,
                called,
                room - cells,
            )
        }
        Ctors::Open { node, set } => {
            steps.nodes[depth] = node;
            steps.sets[depth] = set;
            into(
                b,
                n,
                0,
                s,
                rows,
                steps,
                depth + 1,
                out,
                called,
                room - cells,
            )
        }
    }
}
