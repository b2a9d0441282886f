// Rows of a matrix. A row of n patterns is one number, a place p of the table of simplified patterns: n - left[p] invented wildcards, then the patterns from p on.
#![tactic(auto)]

ghost use Rattle.std.specs.Prelude.{◌≡◌, ◌++◌, ◌+◌, ◌≤◌, ◌<◌, length, get_or, take, drop};
ghost use Rattle.matrix.specs.Numbers.{ar_of, same_lit, same_node};
ghost use Rattle.matrix.specs.Places.{step1, steps, place_of, Steady, Written};

use cells::get;
use heads::Node;
use layout::lent::Block;

// The arities of a block. A call, since a proof knows of what a call returns that it is bytes, and not of what a struct lends.
pub fn arities_of<'a>(b: &Block<'a>) -> &'a [u8]
    ensures { result.now ≡ b.now.types.arities.now }
{
    b.types.arities
}

// How many arguments a node has: 0 at a wildcard and a literal.
pub fn arity(arities: &[u8], node: u16) -> usize
    ensures { result ≡ ar_of arities.now node }
{
    if Node::from(node) == Node::Wildcard {
        return 0;
    }
    usize::from(get(arities, usize::from(node) - 1))
}

// Whether two literals, at their places among the bytes, are equal: kind, length and bytes, one after another. Never inlined: so the loop over rows keeps its registers.
#[inline(never)]
fn same_literal(bytes: &[u8], a: usize, b: usize) -> bool
    requires { (a < 65536) × (b < 65536) }
    ensures { result ≡ same_lit bytes.now a b }
{
    let n = 2 + usize::from(get(bytes, a + 1));
    (0..n).all(|i| get(bytes, a + i) == get(bytes, b + i))
}

// Whether a row that begins with the node h, no wildcard, stays where the matrix is specialised by key: two literals are compared by their bytes.
fn same_node(bytes: &[u8], h: u16, key: u16) -> bool
    ensures { result ≡ same_node bytes.now h key }
{
    match (Node::from(h), Node::from(key)) {
        (Node::Literal(a), Node::Literal(b)) => same_literal(bytes, usize::from(a), usize::from(b)),
        _ => h == key,
    }
}

// The row p of n patterns specialised by key, where it stays.
fn onward(b: &Block<'_>, n: usize, key: u16, p: u16) -> Option<u16>
    requires { n ≤ get_or b.now.left.now p 0 → p + 1 < 65536 }
    ensures { place_of result ≡ step1 b.now.types.bytes.now b.now.nodes.now b.now.left.now n key p }
{
    let at = usize::from(p);
    if b.left(at) < n {
        return Some(p);
    }
    let h = b.node(at);
    if Node::from(h) == Node::Wildcard || same_node(b.types.bytes, h, key) {
        return Some(p + 1);
    }
    None
}

// What `specialize` does, inlined where the block is known to be level and where it isn't.
#[inline(always)]
fn specialize_in(b: &Block<'_>, n: usize, key: u16, s: &mut [u16], rows: usize) -> usize
    requires steady { Steady b.now.left.now n (take rows s.old) }
    requires rows_in_bounds { rows + rows ≤ length s.old }
    ensures { Written s.old rows (steps b.now.types.bytes.now b.now.nodes.now b.now.left.now n key (take rows s.old)) result s.new }
{
    let mut k = 0;
    for i in 0..rows {
        if let Some(q) = onward(b, n, key, s[i]) {
            s[rows + k] = q;
            k += 1;
        }
    }
    k
}

// The rows s[0..rows] specialised by key, written from s[rows] on; how many they are. Never inlined: so its loop has the registers.
#[inline(never)]
pub fn specialize(b: &Block<'_>, n: usize, key: u16, s: &mut [u16], rows: usize) -> usize
    requires steady { Steady b.now.left.now n (take rows s.old) }
    requires rows_in_bounds { rows + rows ≤ length s.old }
    ensures { Written s.old rows (steps b.now.types.bytes.now b.now.nodes.now b.now.left.now n key (take rows s.old)) result s.new }
{
    match b.level() {
        Some(level) => specialize_in(&level, n, key, s, rows),
        None => specialize_in(b, n, key, s, rows),
    }
}

// The first k places, copied to the front of the scratch.
pub fn copy(at: &[u16], k: usize, s: &mut [u16])
    requires { (k ≤ length at.now) × (k ≤ length s.old) }
    ensures { s.new ≡ take k at.now ++ drop k s.old }
{
    s[..k].copy_from_slice(&at[..k]);
}
