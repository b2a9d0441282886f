// The lines of the missing rows, and the report.
ghost use Rattle.std.specs.Prelude.{◌≡◌, ℕ, ◌+◌, ◌-◌, ◌*◌, ◌≤◌, ◌<◌, ◌^◌, length};
ghost use Rattle.scope.specs.Types.{Table};
ghost use Rattle.scope.specs.Driver.{Findings as Found};
ghost use Rattle.scope.specs.Report.{gap_lines, report as report_text};
ghost use Rattle.writing.specs.Writing.{Writes};
ghost use Rattle.looks.specs.Nodes.{mode_of};
ghost use Rattle.text.specs.Rows.{lent, held};
ghost use Rattle.text.specs.Printing.{Many, Printed, Room, Moved};
ghost use Rattle.text.specs.Findings.{gap_text, gaps_text, Tells, Small};

use crate::pretty::Printer;
use layout::lent::Types;
use verdicts::head;
use wording::{calls_line, either};
use writing::Writer;

// What both walks find: a verdict for each clause, so many missing rows one after another among the nodes, and the calls of each walk.
#[derive(Clone, Copy)]
pub struct Findings<'a> {
    pub verdicts: &'a [u8],
    pub nodes: &'a [u16],
    pub gaps: usize,
    pub first: usize,
    pub second: usize,
}

// A line of the missing row at p.
fn gap_text(w: &mut Writer<'_>, printer: &Printer<'_>, p: usize) -> usize
    requires { Room (length printer.now.nodes.now) p w.old.at 1 1024 }
    ensures moved { Moved (length printer.now.nodes.now) p result w.old w.new 1 1 1024 }
    ensures printed { Printed (held printer.now) (Many 1) p result w.old w.new (gap_text (mode_of printer.now.paste)) }
{
    either(w, printer.paste, b"paste ", b"missing ");
    let q = printer.pretty(w, p);
    w.byte(b'\n');
    q
}

// The two lines of the missing row at p: the source's text, then the paste text.
fn gap_line(w: &mut Writer<'_>, types: &Types<'_>, nodes: &[u16], p: usize) -> usize
    requires nodes_len_bound { length nodes.now ≤ 65536 }
    requires p_bound { p < 2 ^ 32 }
    requires at_bound { w.old.at + 2 ^ 36 < 2 ^ 60 }
    ensures p_bound_2 { result + 256 * (length nodes.now - result) ≤ p + 1 + 256 * (length nodes.now - p) }
    ensures at_bound_2 { w.new.at ≤ w.old.at + 2 ^ 36 }
    ensures same { w.new.out.ghost_name ≡ w.old.out.ghost_name }
    ensures long { length w.new.out.now ≡ length w.old.out.now }
    ensures printed { Printed (lent types.now nodes.now) (Many 1) p result w.old w.new (λ table row. gap_lines table row) }
{
    let source = Printer {
        paste: false,
        types: *types,
        nodes,
    };
    gap_text(w, &source, p);
    let paste = Printer {
        paste: true,
        ..source
    };
    gap_text(w, &paste, p)
}

// The two lines of each missing row.
fn gap_lines(w: &mut Writer<'_>, types: &Types<'_>, found: &Findings<'_>)
    requires nodes_len_bound { length found.now.nodes.now ≤ 65536 }
    requires gaps_bound { found.now.gaps ≤ 65536 }
    requires at_bound { w.old.at < 2 ^ 48 }
    ensures at_bound_2 { w.new.at ≤ w.old.at + 2 ^ 36 * found.now.gaps }
    ensures same { w.new.out.ghost_name ≡ w.old.out.ghost_name }
    ensures long { length w.new.out.now ≡ length w.old.out.now }
    ensures printed { (q : ℕ) × Printed (lent types.now found.now.nodes.now) (Many found.now.gaps) 0 q w.old w.new (gaps_text found.now.gaps) }
{
    let mut p = 0;
    for _ in 0..found.gaps {
        p = gap_line(w, types, found.nodes, p);
    }
}

// The report, whole.
pub fn report(w: &mut Writer<'_>, types: &Types<'_>, found: &Findings<'_>)
    requires { Small (length found.now.nodes.now) (length found.now.verdicts.now) found.now.gaps w.old.at }
    ensures same { w.new.out.ghost_name ≡ w.old.out.ghost_name }
    ensures long { length w.new.out.now ≡ length w.old.out.now }
    ensures reported { (table : Table) (f : Found) → Tells types.now found.now table f → Writes w.old w.new (report_text table f) }
{
    head(w, found.verdicts, found.gaps);
    gap_lines(w, types, found);
    calls_line(w, found.first, found.second);
}
