// What is seen in a column: all constructors of its type, or those that are left, as a set.
#![tactic(auto)]

ghost use Rattle.std.specs.Prelude.{◌≡◌, map, ◌≤◌};
ghost use Rattle.matrix.specs.Numbers.{seen_of};
ghost use Rattle.matrix.specs.Places.{head_at, Few};
ghost use Rattle.ctors.specs.Sets.{down_set, ctors_of};

use column::{all, count, first, seen};
use heads::base;
use layout::lent::Block;

#[derive(Clone, Copy, Debug, PartialEq, Eq)]
pub enum Ctors {
    Complete { first: u16, count: usize },
    Open { node: u16, set: u32 },
}

// The constructors that are not seen, of the first k, as a set.
fn unseen(flags: [bool; 32], k: usize) -> u32
    requires { k ≤ 32 }
    ensures { result ≡ down_set flags 0 k }
{
    let mut set = 0;
    for i in (0..k).rev() {
        set = 2 * set + u32::from(!flags[i]);
    }
    set
}

// What `collect_ctors` does, inlined where the block is known to be level and where it isn't.
#[inline(always)]
fn collect_ctors_in(b: &Block<'_>, ps: &[u16], n: usize) -> Ctors
    requires { Few b.now.types.counts.now (map (head_at b.now.nodes.now b.now.left.now n) ps.now) }
    ensures { let hs = map (head_at b.now.nodes.now b.now.left.now n) ps.now in result ≡ ctors_of b.now.types.counts.now hs (seen_of b.now.types.counts.now hs) }
{
    let Some(h) = first(b, ps, n) else {
        return Ctors::Open { node: 0, set: 0 };
    };
    let c = base(h);
    let k = count(&b.types, c);
    let flags = seen(b, ps, n, c);
    if all(flags, k) {
        return Ctors::Complete { first: c, count: k };
    }
    let set = unseen(flags, k);
    Ctors::Open { node: c, set }
}

// What is seen in a column: all constructors of its type; or the step of the path that is left to take.
pub fn collect_ctors(b: &Block<'_>, ps: &[u16], n: usize) -> Ctors
    requires { Few b.now.types.counts.now (map (head_at b.now.nodes.now b.now.left.now n) ps.now) }
    ensures { let hs = map (head_at b.now.nodes.now b.now.left.now n) ps.now in result ≡ ctors_of b.now.types.counts.now hs (seen_of b.now.types.counts.now hs) }
{
    match b.level() {
        Some(level) => collect_ctors_in(&level, ps, n),
        None => collect_ctors_in(b, ps, n),
    }
}
