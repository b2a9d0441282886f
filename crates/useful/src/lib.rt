// `is_useful`, with its calls and the limits.
#![tactic(auto)]

ghost use Rattle.std.specs.Prelude.{◌≡◌, map, ◌+◌, ◌-◌, ◌≤◌, ◌<◌, length, take};
ghost use Rattle.matrix.specs.Numbers.{ar_of};
ghost use Rattle.matrix.specs.Places.{head_at, Listed};
ghost use Rattle.useful.specs.Ready.{Splits, Ready, Work, Walked, into_walk, each_walk, wild_walk, useful_walk};

use ctors::{Ctors, collect_ctors};
use layout::lent::Block;
use matrix::{arities_of, arity, specialize};
use outcomes::{TooMuch, Verdict, leaf, over};

// A new row: `wilds` invented wildcards, and then what stands in the table.
#[derive(Clone, Copy)]
pub struct NewRow<'a> {
    pub wilds: usize,
    pub rest: &'a [u16],
}

impl<'a> NewRow<'a> {
    // The head, and the row behind it: a part of this one, without a copy.
    fn split(self) -> (u16, NewRow<'a>)
        requires { 0 < self.wilds + length self.rest.now }
        ensures { Splits self.entry.wilds self.entry.rest.now result.0 result.1.wilds result.1.rest.now }
    {
        if 0 < self.wilds {
            let wilds = self.wilds - 1;
            return (0, NewRow { wilds, ..self });
        }
        let rest = &self.rest[1..];
        (self.rest[0], NewRow { rest, ..self })
    }
}

// The walk into the matrix specialised by key, which has a arguments, with the new row already without its head.
#[cycle(into_is_useful_try_each_wildcard)]
fn into(
    b: &Block<'_>,
    row: NewRow<'_>,
    n: usize,
    key: u16,
    a: usize,
    s: &mut [u16],
    rows: usize,
    calls: usize,
    room: usize,
) -> Result<Verdict, TooMuch>
    requires work { Work b.now.nodes.now b.now.left.now b.now.types.counts.now b.now.types.arities.now row.rest.now row.wilds (n - 1 + ar_of b.now.types.arities.now key) n s.old rows room }
    requires arguments { (a ≡ ar_of b.now.types.arities.now key) × (a ≤ 255) }
    ensures { Walked s.old rows s.new result calls room (into_walk b.now.types.bytes.now b.now.nodes.now b.now.left.now b.now.types.counts.now b.now.types.arities.now row.entry.rest.now row.entry.wilds n s.old rows key) }
{
    let k = specialize(b, n, key, s, rows);
    is_useful(b, row, n - 1 + a, &mut s[rows..], k, calls, room)
}

// The walks into the constructors key, key + 1, .., more of them, up to the first yes.
#[cycle(into_is_useful_try_each_wildcard)]
fn try_each(
    b: &Block<'_>,
    row: NewRow<'_>,
    n: usize,
    key: u16,
    more: usize,
    s: &mut [u16],
    rows: usize,
    calls: usize,
    room: usize,
) -> Result<Verdict, TooMuch>
    requires work { Work b.now.nodes.now b.now.left.now b.now.types.counts.now b.now.types.arities.now row.rest.now row.wilds (n - 1) n s.old rows room }
    requires listed { Listed (map (head_at b.now.nodes.now b.now.left.now n) (take rows s.old)) key more }
    requires calls_bound { (calls ≤ 65536) × (0 < key) × (key + more < 65536) }
    ensures { Walked s.old rows s.new result calls room (each_walk b.now.types.bytes.now b.now.nodes.now b.now.left.now b.now.types.counts.now b.now.types.arities.now row.entry.rest.now row.entry.wilds n s.old rows key more) }
{
    let arities = arities_of(b);
    let mut calls = calls;
    for i in 0..more {
        let c = key + i as u16;
        let a = arity(arities, c);
        let wilds = row.wilds + a;
        let v = into(b, NewRow { wilds, ..row }, n, c, a, s, rows, calls, room)?;
        let last = v.yes;
        if last {
            return Ok(v);
        }
        calls = v.calls;
    }
    Ok(Verdict { yes: false, calls })
}

// The walk below a new row whose head is a wildcard, without that head.
#[cycle(into_is_useful_try_each_wildcard)]
fn wildcard(
    b: &Block<'_>,
    row: NewRow<'_>,
    n: usize,
    s: &mut [u16],
    rows: usize,
    calls: usize,
    room: usize,
) -> Result<Verdict, TooMuch>
    requires work { Work b.now.nodes.now b.now.left.now b.now.types.counts.now b.now.types.arities.now row.rest.now row.wilds (n - 1) n s.old rows room }
    requires calls_bound { calls ≤ 65536 }
    ensures { Walked s.old rows s.new result calls room (wild_walk b.now.types.bytes.now b.now.nodes.now b.now.left.now b.now.types.counts.now b.now.types.arities.now row.entry.rest.now row.entry.wilds n s.old rows) }
{
    match collect_ctors(b, &s[..rows], n) {
        Ctors::Complete { first, count } => {
            try_each(b, row, n, first, count, s, rows, calls, room)
        }
        Ctors::Open { .. } => into(b, row, n, 0, 0, s, rows, calls, room),
    }
}

// Whether the new row of n patterns is useful after the rows s[0..rows].
#[cycle(into_is_useful_try_each_wildcard)]
pub fn is_useful(
    b: &Block<'_>,
    row: NewRow<'_>,
    n: usize,
    s: &mut [u16],
    rows: usize,
    calls: usize,
    room: usize,
) -> Result<Verdict, TooMuch>
    requires { Ready b.now.nodes.now b.now.left.now b.now.types.counts.now b.now.types.arities.now row.rest.now row.wilds n s.old rows room }
    ensures { Walked s.old rows s.new result calls room (useful_walk b.now.types.bytes.now b.now.nodes.now b.now.left.now b.now.types.counts.now b.now.types.arities.now row.entry.rest.now row.entry.wilds n s.old rows) }
{
    let arities = arities_of(b);
    let cells = (rows + 1) * n;
    if over(calls, cells, room) {
        return Err(TooMuch);
    }
    if rows == 0 {
        return leaf(true, calls);
    }
    if n == 0 {
        return leaf(false, calls);
    }
    let calls = calls + 1;
    let room = room - cells;
    let (h, tail) = row.split();
    if h == 0 {
        return wildcard(b, tail, n, s, rows, calls, room);
    }
    let a = arity(arities, h);
    into(b, tail, n, h, a, s, rows, calls, room)
}
