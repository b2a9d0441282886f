// The prefix-order table: the numbers of its nodes, `left` beside them, and the stack of open patterns: lists and
// constructors of which patterns are still to be read.
#![tactic(auto)]

ghost use Rattle.std.specs.Prelude.{◌≡◌, [], ◌∷◌, map, ◌+◌, ◌*◌, ◌-◌, ◌/◌, ◌≤◌, ◌<◌, ◌^◌, length, get_or, take, drop, replicate, ltb};
ghost use Rattle.std.proofs.lemmas.List.Edits.{sets};
ghost use Rattle.nodes.specs.Keys.{low16, key_of};
ghost use Rattle.nodes.specs.Lefts.{arity_of, lefts_of};
ghost use Rattle.nodes.specs.Opens.{opening, mark_of, what_of, open_at, wanted, taken, cell_of, end_of};

use cells::{get, low, put, put_many};
use heads::{LITERALS, Node, WILDCARD};

// The node of constructor c of type t.
pub fn key(t: usize, c: usize) -> u16
    requires { (t < 16384) × (c < 65536) }
    ensures { result ≡ key_of t c }
{
    low(1 + 32 * t + c) % LITERALS
}

// How many arguments a node has: none at a wildcard and a literal.
fn arity(arities: &[u8], node: u16) -> usize
    ensures { (result ≡ arity_of arities.now node) × (result < 256) }
{
    match Node::from(node) {
        Node::Constructor(c) => usize::from(get(arities, usize::from(c) - 1)),
        Node::Wildcard | Node::Literal(_) => 0,
    }
}

// How many patterns of a row are left from each of its nodes on.
pub fn count_left(arities: &[u8], nodes: &[u16], left: &mut [u16], used: usize, count: usize)
    requires count_in_bounds { used + count ≤ length nodes.now }
    requires nodes_len_bound { length nodes.now < 65536 }
    ensures { left.new ≡ sets left.old used (map low16 (lefts_of arities.now 1 (take count (drop used nodes.now)))) }
{
    let mut more: usize = 1;
    for i in 0..count {
        put(left, used + i, low(more));
        more = more.saturating_sub(1) + arity(arities, get(nodes, used + i));
    }
}

// What an open pattern is: a list of type t, or a constructor with the wildcards after its arguments.
#[derive(Clone, Copy, Debug, PartialEq, Eq)]
pub enum What {
    List { t: usize, tail: bool },
    Ctor { wilds: usize },
}

// The cell of a list of type 0 without a tail: below it a cell is a constructor's wildcards.
const LISTS: u16 = 32768;

// By its cell of the stack: LISTS + 2 t and 1 with a tail, or the wildcards.
impl From<u16> for What {
    ghost from_gives = { λ n w. w ≡ what_of n };

    fn from(cell: u16) -> What {
        if cell < LISTS {
            return What::Ctor {
                wilds: usize::from(cell),
            };
        }
        What::List {
            t: usize::from(cell - LISTS) / 2,
            tail: cell % 2 == 1,
        }
    }
}

// The cell of a list of type t.
fn mark(t: usize, tail: bool) -> u16
    requires { t < 16384 }
    ensures { result ≡ mark_of t tail }
{
    LISTS + low(2 * t) + u16::from(tail)
}

// An open pattern as its cells have it, whatever they hold: what it is; how many patterns are left before its tail or
// its end; and where the next one's type stands among the fields.
#[derive(Clone, Copy, Debug, PartialEq, Eq)]
pub struct Open {
    pub what: u16,
    pub more: u16,
    pub field: u16,
}

impl Open {
    // A list of type t.
    pub fn list(starts: &[u16], t: usize, more: usize, tail: bool) -> Open
        requires { t < 16384 }
        ensures { result ≡ opening (mark_of t tail) (low16 more) (get_or starts.now (32 * t) 0) }
    {
        Open {
            what: mark(t, tail),
            more: low(more),
            field: get(starts, 32 * t),
        }
    }

    // Constructor c of type t.
    pub fn ctor(starts: &[u16], t: usize, c: usize, more: usize, wilds: usize) -> Open
        requires { (t < 16384) × (c < 65536) }
        ensures { result ≡ opening (low16 wilds) (low16 more) (get_or starts.now (32 * t + c) 0) }
    {
        Open {
            what: low(wilds),
            more: low(more),
            field: get(starts, 32 * t + c),
        }
    }

    // The one on top of `below` others.
    pub fn top(stack: &[u16], below: usize) -> Open
        requires { 3 * below + 3 < 2 ^ 64 }
        ensures { result ≡ open_at stack.now below }
    {
        let i = 3 * below;
        Open {
            what: get(stack, i),
            more: get(stack, i + 1),
            field: get(stack, i + 2),
        }
    }

    // One more on the stack of `depth`.
    pub fn push(self, stack: &mut [u16], depth: usize)
        requires { 3 * depth + 3 < 2 ^ 64 }
        ensures { stack.new ≡ sets stack.old (3 * depth) (self.what ∷ self.more ∷ self.field ∷ []) }
    {
        let i = put(stack, 3 * depth, self.what);
        let j = put(stack, i, self.more);
        put(stack, j, self.field);
    }

    // The type of a list.
    pub fn list_type(&self) -> usize
        ensures { (result ≡ (self.now.what - 32768) / 2) × (result < 16384) }
    {
        match What::from(self.what) {
            What::List { t, .. } => t,
            What::Ctor { .. } => 0,
        }
    }

    // Has it a pattern still to read.
    pub fn wants(&self) -> bool
        ensures { result ≡ ltb 0 (wanted self.now.what self.now.more) }
    {
        match What::from(self.what) {
            What::List { tail, .. } => tail || 0 < self.more,
            What::Ctor { .. } => 0 < self.more,
        }
    }

    // It after one of its patterns.
    pub fn take_one(self) -> Open
        requires { 0 < self.more }
        ensures { result ≡ taken self }
    {
        let field = match What::from(self.what) {
            What::List { .. } => self.field,
            What::Ctor { .. } => self.field.wrapping_add(1),
        };
        Open {
            more: self.more - 1,
            field,
            ..self
        }
    }

    // A list's next cell, before its element.
    pub fn cell(&self, nodes: &mut [u16], at: usize) -> usize
        requires { at + 1 < 2 ^ 64 }
        ensures value { result ≡ at + length (cell_of self.now.what) }
        ensures nodes_after { nodes.new ≡ sets nodes.old at (cell_of self.now.what) }
    {
        match What::from(self.what) {
            What::List { t, .. } => put(nodes, at, key(t, 0)),
            What::Ctor { .. } => at,
        }
    }

    // Its end: that of a list, or the wildcards after a constructor's arguments.
    pub fn finish(&self, nodes: &mut [u16], at: usize) -> usize
        requires { at + 65537 < 2 ^ 64 }
        ensures value { result ≡ at + length (end_of self.now.what) }
        ensures nodes_after { nodes.new ≡ sets nodes.old at (end_of self.now.what) }
    {
        match What::from(self.what) {
            What::List { t, .. } => put(nodes, at, key(t, 1)),
            What::Ctor { wilds } => put_many(nodes, at, WILDCARD, wilds),
        }
    }
}
