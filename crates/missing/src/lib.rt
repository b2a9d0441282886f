// The rows that no clause covers.
#![tactic(auto)]

ghost use Rattle.std.specs.Prelude.{◌≡◌, ◌≤◌, length, replicate};
ghost use Rattle.matrix.specs.Places.{Sizes, Starts};
ghost use Rattle.outcomes.specs.Past.{said_seek};
ghost use Rattle.collect.specs.Ready.{sought};
ghost use Rattle.missing.specs.Missing.{missing_rows, out_after, FindsAll};

use collect::collect_missing_patterns;
use layout::lent::Block;
use matrix::copy;
use outcomes::{Seek, TooMuch};
use paths::Steps;

// The rows that are missing from all clauses, whose places `starts` has.
pub fn missing(
    b: &Block<'_>,
    starts: &[u16],
    s: &mut [u16],
    out: &mut [u16; 4096],
) -> Result<Seek, TooMuch>
    requires sizes { Sizes b.now.nodes.now b.now.types.arities.now }
    requires starts { Starts b.now.nodes.now b.now.left.now b.now.types.counts.now b.now.types.arities.now starts.now }
    requires starts_len_bound { (length starts.now ≤ 64) × (16384 ≤ length s.old) × (4096 ≤ length out.old) }
    ensures result_value { said_seek result ≡ sought 0 16384 0 0 (missing_rows b.now.types.bytes.now b.now.types.counts.now b.now.types.arities.now b.now.nodes.now starts.now) }
    ensures out_after { out.new ≡ out_after out.old (missing_rows b.now.types.bytes.now b.now.types.counts.now b.now.types.arities.now b.now.nodes.now starts.now).result result }
    ensures s_after { s.new ≡ replicate (length s.old) 0 }
    ensures finds_all { FindsAll b.now.types.bytes.now b.now.nodes.now b.now.left.now b.now.types.counts.now b.now.types.arities.now starts.now out.new result }
{
    let n = starts.len();
    copy(starts, n, s);
    let mut steps = Steps {
        nodes: [0; 16384],
        sets: [0; 16384],
    };
    let none = Seek {
        written: 0,
        rows: 0,
        calls: 0,
    };
    let r = collect_missing_patterns(b, 1, s, n, &mut steps, 0, out, none, 16384);
    s.fill(0);
    if r.is_err() {
        out.fill(0);
    }
    r
}
