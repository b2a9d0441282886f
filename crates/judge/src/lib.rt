// The driver of `is_useful`: each clause judged against all before it.
#![tactic(auto)]

ghost use Rattle.std.specs.Prelude.{◌≡◌, map, ◌≤◌, ◌<◌, length};
ghost use Rattle.std.proofs.lemmas.List.Edits.{sets};
ghost use Rattle.scope.specs.Lists.{bit};
ghost use Rattle.matrix.specs.Places.{Sizes, Starts};
ghost use Rattle.outcomes.specs.Past.{said_verdict};
ghost use Rattle.useful.specs.Ready.{limited};
ghost use Rattle.judge.specs.Driver.{said_judged, clause_walk, judged_to, answered, written, JudgesAll};

use layout::lent::Block;
use matrix::copy;
use outcomes::{TooMuch, Verdict, bit_of};
use useful::{NewRow, is_useful};

// Clause k judged against all clauses before it; `starts` has the clauses' places.
fn clause(
    b: &Block<'_>,
    starts: &[u16],
    k: usize,
    s: &mut [u16],
    calls: usize,
) -> Result<Verdict, TooMuch>
    requires sizes { Sizes b.now.nodes.now b.now.types.arities.now }
    requires starts { Starts b.now.nodes.now b.now.left.now b.now.types.counts.now b.now.types.arities.now starts.now }
    requires k_in_bounds { (k < length starts.now) × (k ≤ 64) × (16384 ≤ length s.old) }
    ensures { said_verdict result ≡ limited calls 16384 (clause_walk b.now.types.bytes.now b.now.types.counts.now b.now.types.arities.now b.now.nodes.now starts.now k) }
{
    copy(starts, k, s);
    let p = usize::from(starts[k]);
    let row = NewRow {
        wilds: 0,
        rest: &b.nodes[p..],
    };
    is_useful(b, row, 1, s, k, calls, 16384)
}

// Every clause judged, its verdict in `verdicts`; all calls together, or too much work.
pub fn judge(
    b: &Block<'_>,
    starts: &[u16],
    s: &mut [u16],
    verdicts: &mut [u8],
) -> Result<usize, TooMuch>
    requires sizes { Sizes b.now.nodes.now b.now.types.arities.now }
    requires starts { Starts b.now.nodes.now b.now.left.now b.now.types.counts.now b.now.types.arities.now starts.now }
    requires starts_len_bound { (length starts.now ≤ 64) × (16384 ≤ length s.old) × (length starts.now ≤ length verdicts.old) }
    ensures result_value { said_judged result ≡ answered (judged_to b.now.types.bytes.now b.now.types.counts.now b.now.types.arities.now b.now.nodes.now starts.now (length starts.now)) }
    ensures verdicts_after { verdicts.new ≡ sets verdicts.old 0 (map bit (written (judged_to b.now.types.bytes.now b.now.types.counts.now b.now.types.arities.now b.now.nodes.now starts.now) (length starts.now))) }
    ensures judges_all { JudgesAll b.now.types.bytes.now b.now.nodes.now b.now.left.now b.now.types.counts.now b.now.types.arities.now starts.now verdicts.old verdicts.new result }
{
    let mut calls = 0;
    for k in 0..starts.len() {
        let v = clause(b, starts, k, s, calls)?;
        verdicts[k] = bit_of(v.yes);
        calls = v.calls;
    }
    Ok(calls)
}
