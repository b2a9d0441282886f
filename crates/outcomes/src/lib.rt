// What the two walks answer, and the limits that they are held to: refusal 10.
#![tactic(auto)]

ghost use Rattle.std.specs.Prelude.{◌≡◌, ◌+◌, ◌≤◌, ◌<◌};
ghost use Rattle.scope.specs.Lists.{bit};
ghost use Rattle.scope.specs.Blocks.{ok};
ghost use Rattle.outcomes.specs.Past.{said_verdict, said_spelt, said_seek, past, fitting, counting};

// Too much work, past a limit: refusal 10.
#[derive(Clone, Copy, Debug, PartialEq, Eq)]
pub struct TooMuch;

// Whether a row is useful, and the calls so far.
#[derive(Clone, Copy, Debug, PartialEq, Eq)]
pub struct Verdict {
    pub yes: bool,
    pub calls: usize,
}

// How many nodes and rows are written.
#[derive(Clone, Copy, Debug, PartialEq, Eq)]
pub struct Spelt {
    pub written: usize,
    pub rows: usize,
}

// How many nodes and rows are written, and the calls so far.
#[derive(Clone, Copy, Debug, PartialEq, Eq)]
pub struct Seek {
    pub written: usize,
    pub rows: usize,
    pub calls: usize,
}

// Whether a call that holds so many cells is past a limit, after so many calls and with room for so many cells.
pub fn over(calls: usize, cells: usize, room: usize) -> bool
    ensures { result ≡ past calls cells room }
{
    if room < cells {
        return true;
    }
    65536 <= calls
}

// A call of `is_useful` that makes no other: itself counted.
pub fn leaf(yes: bool, calls: usize) -> Result<Verdict, TooMuch>
    requires { calls < 65536 }
    ensures { said_verdict result ≡ ok (yes, calls + 1) }
{
    let calls = calls + 1;
    Ok(Verdict { yes, calls })
}

// A verdict as a byte.
pub fn bit_of(reached: bool) -> u8
    ensures { result ≡ bit reached }
{
    u8::from(reached)
}

// One row more, written up to the place `at`: over the limit of nodes, or not.
#[tactic(auto, using(crate::proofs::Tests::fits, crate::proofs::Tests::fits_not))]
pub fn fit(at: usize, rows: usize) -> Result<Spelt, TooMuch>
    requires { rows ≤ 4096 }
    ensures { said_spelt result ≡ fitting at rows }
{
    if 4096 < at {
        return Err(TooMuch);
    }
    Ok(Spelt {
        written: at,
        rows: rows + 1,
    })
}

// A call of `collect_missing_patterns` that makes no other, its rows written out: itself counted.
pub fn counted(r: Result<Spelt, TooMuch>, calls: usize) -> Result<Seek, TooMuch>
    requires { calls < 65536 }
    ensures { said_seek result ≡ counting (said_spelt r) calls }
{
    let Spelt { written, rows } = r?;
    Ok(Seek {
        written,
        rows,
        calls: calls + 1,
    })
}
