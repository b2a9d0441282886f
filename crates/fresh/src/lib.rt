// A constructor's name twice in a type, a label twice in a constructor: refusal 7 at that line.
#![tactic(auto)]

ghost use Rattle.std.specs.Prelude.{◌≡◌, ◌+◌, ◌*◌, ◌<◌, ◌^◌};
ghost use Rattle.scope.specs.Lists.{any, twice, same as same_text};
ghost use Rattle.layout.specs.Types.{text_at};
ghost use Rattle.fresh.specs.Fresh.{name_there, label_texts, labels_new, is_fresh_in};

use cells::get;
use layout::lent::Types;
use layout::{after_name, name_at};
use names::same;

// Whether the names at two places are the same.
fn same_at(bytes: &[u8], p: usize, q: usize) -> bool
    ensures { result ≡ same_text (text_at bytes.now p) (text_at bytes.now q) }
{
    same(name_at(bytes, p), name_at(bytes, q))
}

// Whether one of the first n names from `from` on is the one at `at`.
fn name_there(types: &Types<'_>, at: usize, from: usize, n: usize) -> bool
    requires { from + n < 2 ^ 63 }
    ensures { result ≡ name_there types.now.bytes.now at types.now.names.now from n }
{
    (from..from + n).any(|i| same_at(types.bytes, at, types.name(i)))
}

// Whether one of the n fields' labels from `p` on is the one at `at`.
fn label_there(bytes: &[u8], at: usize, p: usize, n: usize) -> bool
    requires p_bound { p < 2 ^ 40 }
    requires n_bound { n < 256 }
    ensures { result ≡ any (same_text (text_at bytes.now at)) (label_texts bytes.now p n) }
{
    let mut q = p;
    for _ in 0..n {
        if same_at(bytes, at, q + 1) {
            return true;
        }
        q = after_name(bytes, q + 1);
    }
    false
}

// Whether some label of the n fields from `p` on is there twice.
fn labels_twice(bytes: &[u8], p: usize, n: usize) -> bool
    requires p_bound { p < 2 ^ 34 }
    requires n_bound { n < 256 }
    ensures { result ≡ twice (label_texts bytes.now p n) }
{
    let mut q = p;
    for more in (0..n).rev() {
        let next = after_name(bytes, q + 1);
        if label_there(bytes, q + 1, next, more) {
            return true;
        }
        q = next;
    }
    false
}

// Whether no label is there twice, from the labels' flag on.
#[tactic(auto, unfolding(crate::specs::Fresh::labels_new))]
fn labels_new(bytes: &[u8], flag: usize) -> bool
    requires { flag < 2 ^ 33 }
    ensures { result ≡ labels_new bytes.now flag }
{
    get(bytes, flag) == 0 || !labels_twice(bytes, flag + 2, usize::from(get(bytes, flag + 1)))
}

// Whether the constructor's name, at `at`, is new in the type t, and no label is there twice.
#[tactic(auto, unfolding(crate::specs::Fresh::is_fresh_in))]
pub fn is_fresh(types: &Types<'_>, at: usize, t: usize) -> bool
    requires at_bound { at < 2 ^ 32 }
    requires t_bound { t < 64 }
    ensures { result ≡ is_fresh_in types.now.bytes.now at types.now.names.now types.now.counts.now t }
{
    let n = usize::from(get(types.counts, t));
    !name_there(types, at, 32 * t, n) && labels_new(types.bytes, after_name(types.bytes, at))
}
