// A block judged: both walks over it, then its report or refusal 10 or 11.
#![tactic(auto)]

ghost use Rattle.std.specs.Prelude.{◌≡◌, ℕ, ◌≤◌, List, length, replicate};
ghost use Rattle.scope.specs.Blocks as scope;
ghost use Rattle.scope.specs.Blocks.{parsed};
ghost use Rattle.scope.specs.Answer.{outcome_of};
ghost use Rattle.matrix.specs.Places.{Sizes, Starts};
ghost use Rattle.walks.specs.Bridge.{Holding};
ghost use Rattle.fitting.specs.Given.{Given};
ghost use Rattle.judging.specs.Blocks.{lent_by, Holds, Known};
ghost use Rattle.judging.specs.Walks.{said_walks, Walked};

use fitting::say;
use judge::judge;
use layout::lent::Block;
use missing::missing;
use outcomes::TooMuch;
use scope::Answer;
use scope::refusal::Refusal;
use text::lines::Findings;

// How far both walks came: the calls of the first, how many nodes and rows are missing, the calls of the second.
#[derive(Clone, Copy, Debug, PartialEq, Eq)]
pub struct Walks {
    pub first: usize,
    pub written: usize,
    pub gaps: usize,
    pub second: usize,
}

// Both walks: the verdicts, and the missing rows one after another in `out`.
fn walk(
    b: &Block<'_>,
    rows: &[u16],
    scratch: &mut [u16],
    verdicts: &mut [u8; 64],
    out: &mut [u16; 4096],
) -> Result<Walks, TooMuch>
    requires sizes { Sizes b.now.nodes.now b.now.types.arities.now }
    requires starts { Starts b.now.nodes.now b.now.left.now b.now.types.counts.now b.now.types.arities.now rows.now }
    requires rows_len_bound { (length rows.now ≤ 64) × (16384 ≤ length scratch.old) }
    ensures by_index { (kinds : List ℕ) (s : scope.Block) → Holding b.now.types.bytes.now kinds b.now.nodes.now b.now.left.now b.now.types.counts.now b.now.types.arities.now rows.now s.table s.subject s.rows → Walked b.now.types.bytes.now s verdicts.new out.new (said_walks result) }
    ensures scratch_after { scratch.new ≡ replicate (length scratch.old) 0 }
{
    let Ok(first) = judge(b, rows, scratch, verdicts) else {
        scratch.fill(0);
        return Err(TooMuch);
    };
    let found = missing(b, rows, scratch, out)?;
    Ok(Walks {
        first,
        written: found.written,
        gaps: found.rows,
        second: found.calls,
    })
}

// The block that the slices hold, judged: refusal 10, then the report or 11.
pub fn judged(b: &Block<'_>, rows: &[u16], scratch: &mut [u16], report: &mut [u8]) -> Answer
    requires known { Known (lent_by b.now rows.now) }
    requires in_bounds { 16384 ≤ length scratch.old }
    ensures given { (s : scope.Block) → Holds (lent_by b.now rows.now) s → Given (outcome_of (length report.old) (parsed s)) result report.old report.new }
    ensures scratch_after { scratch.new ≡ replicate (length scratch.old) 0 }
{
    let mut verdicts = [0u8; 64];
    let mut out = [0u16; 4096];
    let Ok(walks) = walk(b, rows, scratch, &mut verdicts, &mut out) else {
        return Answer::refused(Refusal::Work, 0);
    };
    let found = Findings {
        verdicts: &verdicts[..rows.len()],
        nodes: &out[..walks.written],
        gaps: walks.gaps,
        first: walks.first,
        second: walks.second,
    };
    say(&b.types, &found, report)
}
