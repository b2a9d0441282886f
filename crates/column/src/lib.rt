// The first column of a matrix: which constructors are seen in it.
#![tactic(auto)]

ghost use Rattle.std.specs.Prelude.{◌≡◌, false, map, ℕ, ◌+◌, ◌≤◌, ◌<◌, get_or, MatchOption};
ghost use Rattle.matrix.specs.Numbers.{first_of, mem, count_of};
ghost use Rattle.matrix.specs.Places.{head_at, up_to, Few};

use heads::{Node, base};
use layout::lent::{Block, Types};

// The head of the row p of n patterns: a wildcard where it is invented.
pub fn head(b: &Block<'_>, p: usize, n: usize) -> u16
    ensures { result ≡ head_at b.now.nodes.now b.now.left.now n p }
{
    if b.left(p) < n { 0 } else { b.node(p) }
}

// The first constructor of a column: each row's head is looked for among the constructors of its type. Inlined: so it knows what its caller knows of the block.
#[inline(always)]
pub fn first(b: &Block<'_>, ps: &[u16], n: usize) -> Option<u16>
    requires { Few b.now.types.counts.now (map (head_at b.now.nodes.now b.now.left.now n) ps.now) }
    ensures { let hs = map (head_at b.now.nodes.now b.now.left.now n) ps.now in MatchOption result (first_of hs ≡ 0) (λ h. (h ≡ first_of hs) × (0 < h)) }
{
    let mut found = None;
    'search: for &p in ps {
        if let Node::Constructor(h) = Node::from(head(b, usize::from(p), n)) {
            let from = base(h);
            for c in 0..count(&b.types, from) {
                if usize::from(from) + c == usize::from(h) {
                    found = Some(h);
                    break 'search;
                }
            }
        }
    }
    found
}

// How many constructors the type has whose first constructor is `from`.
pub fn count(types: &Types<'_>, from: u16) -> usize
    requires { 0 < from }
    ensures { result ≡ count_of types.now.counts.now from }
{
    types.count((usize::from(from) - 1) / 32)
}

// Which of the constructors from `from` on a column has. Inlined: so it knows what its caller knows of the block.
#[inline(always)]
pub fn seen(b: &Block<'_>, ps: &[u16], n: usize, from: u16) -> [bool; 32]
    ensures { (c : ℕ) → c < 32 → get_or result c false ≡ mem (from + c) (map (head_at b.now.nodes.now b.now.left.now n) ps.now) }
{
    let mut flags = [false; 32];
    for &p in ps {
        let h = head(b, usize::from(p), n);
        if from <= h && h - from < 32 {
            flags[usize::from(h - from)] = true;
        }
    }
    flags
}

// Whether the first k flags are up.
pub fn all(flags: [bool; 32], k: usize) -> bool
    requires { k ≤ 32 }
    ensures { result ≡ up_to flags k }
{
    flags[..k].iter().all(|&up| up)
}
