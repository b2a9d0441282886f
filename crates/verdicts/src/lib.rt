// The lines of the verdicts: how many are yes, one line a clause, and all that stands before the missing rows.
#![tactic(auto)]

ghost use Rattle.std.specs.Prelude.{◌≡◌, ◌++◌, ◌+◌, ◌*◌, ◌≤◌, ◌<◌, ◌^◌, length};
ghost use Rattle.scope.specs.Lists.{bytes as text};
ghost use Rattle.scope.specs.Text.{decimal as decimalText};
ghost use Rattle.scope.specs.Report.{yeses as yesesOf, as_line, count_line, verdict_word, clause_lines};
ghost use Rattle.writing.specs.Writing.{Writes};
ghost use Rattle.verdicts.specs.Verdicts.{said, counts_text};

use wording::{either, ended, numbered};
use writing::Writer;

// How many verdicts are yes: 1 is yes.
#[tactic(auto, using(crate::proofs::Verdicts::yeses_counted))]
fn yeses(verdicts: &[u8]) -> usize
    ensures value { result ≡ yesesOf (said verdicts.now) }
    ensures upper_bound { result ≤ length verdicts.now }
{
    verdicts.iter().filter(|&&v| v == 1).count()
}

// Line 1 counts clauses and both verdicts.
fn count_line(w: &mut Writer<'_>, clauses: usize, yes: usize)
    requires yes_le_clauses { yes ≤ clauses }
    requires at_bound { w.old.at + 256 < 2 ^ 62 }
    ensures wrote { Writes w.old w.new (counts_text clauses yes) }
    ensures upper_bound { w.new.at ≤ w.old.at + 128 }
{
    numbered(w, b"clauses ", clauses);
    numbered(w, b" reached ", yes);
    ended(w, b" never ", clauses - yes);
}

// The line of clause k.
fn clause_line(w: &mut Writer<'_>, k: usize, yes: bool)
    requires { w.old.at + 64 < 2 ^ 62 }
    ensures wrote { Writes w.old w.new (as_line (text "clause " ++ decimalText k ++ verdict_word yes)) }
    ensures upper_bound { w.new.at ≤ w.old.at + 64 }
{
    numbered(w, b"clause ", k);
    either(w, yes, b" reached\n", b" never\n");
}

// One line a clause.
fn clause_lines(w: &mut Writer<'_>, verdicts: &[u8])
    requires verdicts_len_bound { length verdicts.now ≤ 65536 }
    requires verdicts_bound { w.old.at + 64 * length verdicts.now + 64 < 2 ^ 62 }
    ensures wrote { Writes w.old w.new (clause_lines 1 (said verdicts.now)) }
    ensures upper_bound { w.new.at ≤ w.old.at + 64 * length verdicts.now }
{
    for (i, &v) in verdicts.iter().enumerate() {
        clause_line(w, i + 1, v == 1);
    }
}

// What stands before the missing rows: both verdicts counted, a line for each clause, and how many rows there are.
pub fn head(w: &mut Writer<'_>, verdicts: &[u8], gaps: usize)
    requires verdicts_len_bound { length verdicts.now ≤ 65536 }
    requires at_bound { w.old.at < 2 ^ 32 }
    ensures wrote { Writes w.old w.new (count_line (said verdicts.now) ++ clause_lines 1 (said verdicts.now) ++ as_line (text "gaps " ++ decimalText gaps)) }
    ensures upper_bound { w.new.at ≤ w.old.at + 64 * length verdicts.now + 256 }
{
    count_line(w, verdicts.len(), yeses(verdicts));
    clause_lines(w, verdicts);
    ended(w, b"gaps ", gaps);
}
