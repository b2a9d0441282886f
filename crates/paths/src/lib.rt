// The path from the root of the missing walk: a step is a node, or, where its set is not 0, each constructor of the set,
// with wildcards inside. The rows that it says, written out.
#![tactic(auto)]

ghost use Rattle.std.specs.Prelude.{◌≡◌, ℕ, ◌+◌, ◌-◌, ◌^◌, ◌≤◌, ◌<◌, [], ◌∷◌, length, get_or, set, replicate};
ghost use Rattle.paths.specs.Path.{spelt1, spelt, chosen, under, path_of};
ghost use Rattle.paths.specs.Spread.{Put, Spread, Spelling};

use cells::{put, put_many};
use matrix::arity;
use outcomes::{Spelt, TooMuch, fit};

// The steps from the root: nodes, and a set beside each. Two arrays, since pairs would take 32 KiB more of the stack.
#[derive(Drop)]
pub struct Steps {
    pub nodes: [u16; 16384],
    pub sets: [u32; 16384],
}

// n wildcards.
fn put_wilds(out: &mut [u16; 4096], at: usize, n: usize) -> usize
    requires { at + n < 2 ^ 64 }
    ensures { Put out.old at (replicate n 0) result out.new }
{
    put_many(out, at, 0, n)
}

// One step of the path as it is chosen now.
fn put_step(arities: &[u8], node: u16, set: u32, out: &mut [u16; 4096], at: usize) -> usize
    requires { at + 65536 < 2 ^ 64 }
    ensures { Put out.old at (spelt1 arities.now node set) result out.new }
{
    let next = put(out, at, node);
    if set == 0 {
        return next;
    }
    let a = arity(arities, node);
    put_wilds(out, next, a)
}

// The row that the path says as it is chosen now, in front of n wildcards.
fn put_row(
    arities: &[u8],
    nodes: &[u16; 16384],
    sets: &[u32; 16384],
    depth: usize,
    n: usize,
    out: &mut [u16; 4096],
    written: usize,
) -> usize
    requires { (depth ≤ 16384) × (n ≤ 16640) × (written ≤ 4096) }
    ensures { Put out.old written (spelt arities.now nodes.now sets.now 0 depth n) result out.new }
{
    let mut at = written;
    for i in 0..depth {
        at = put_step(arities, nodes[i], sets[i], out, at);
    }
    put_wilds(out, at, n)
}

// The rows of every choice for the first k steps, the others as chosen now; the choices of the innermost vary slowest.
#[cycle(choose_put_rows)]
pub fn put_rows(
    arities: &[u8],
    nodes: &mut [u16; 16384],
    sets: &[u32; 16384],
    depth: usize,
    k: usize,
    n: usize,
    out: &mut [u16; 4096],
    at: Spelt,
) -> Result<Spelt, TooMuch>
    requires { Spelling nodes.old sets.now depth k n at.written at.rows }
    ensures spread { Spread out.old at.written at.rows (under arities.now (path_of nodes.old sets.now k) (spelt arities.now nodes.old sets.now k (depth - k) n ∷ [])) result out.new }
    ensures path_unchanged { nodes.new ≡ nodes.old }
{
    if k == 0 {
        let end = put_row(arities, nodes, sets, depth, n, out, at.written);
        return fit(end, at.rows);
    }
    let j = k - 1;
    if sets[j] == 0 {
        return put_rows(arities, nodes, sets, depth, j, n, out, at);
    }
    let b = nodes[j];
    let r = choose(arities, nodes, sets, depth, j, n, out, at);
    nodes[j] = b;
    r
}

// The same for each constructor of step k that is in its set, the first of them standing there.
#[cycle(choose_put_rows)]
fn choose(
    arities: &[u8],
    nodes: &mut [u16; 16384],
    sets: &[u32; 16384],
    depth: usize,
    k: usize,
    n: usize,
    out: &mut [u16; 4096],
    mut at: Spelt,
) -> Result<Spelt, TooMuch>
    requires spelling { Spelling nodes.old sets.now depth k n at.written at.rows }
    requires k_lt_depth { (k < depth) × (0 < get_or sets.now k 0) × (get_or nodes.old k 0 + 32 < 65536) }
    ensures spread { Spread out.old at.written at.rows (under arities.now (path_of nodes.old sets.now k) (chosen arities.now (get_or sets.now k 0) (get_or nodes.old k 0) 32 (spelt arities.now nodes.old sets.now (k + 1) (depth - (k + 1)) n))) result out.new }
    ensures by_index { (x : ℕ) → set nodes.new k x ≡ set nodes.old k x }
{
    let b = nodes[k];
    let mut rest = sets[k];
    for c in 0..32 {
        if rest % 2 == 1 {
            nodes[k] = b + c;
            at = put_rows(arities, nodes, sets, depth, k, n, out, at)?;
        }
        rest /= 2;
    }
    Ok(at)
}
