// The report fitted to its buffer: refusal 11.
#![tactic(auto)]

ghost use Rattle.std.specs.Prelude.{length};
ghost use Rattle.scope.specs.Types.{Table};
ghost use Rattle.scope.specs.Driver.{Findings as Found};
ghost use Rattle.scope.specs.Report.{report as report_text};
ghost use Rattle.scope.specs.Answer.{fitted};
ghost use Rattle.text.specs.Findings.{Tells, Small};
ghost use Rattle.writing.specs.Writing.{Wrote};
ghost use Rattle.fitting.specs.Given.{Given};

use layout::lent::Types;
use numbers::fit;
use scope::Answer;
use text::lines::{Findings, report as write_report};
use writing::Writer;

// The report at the front of a buffer, cut at the buffer's end; its length.
fn put(types: &Types<'_>, found: &Findings<'_>, out: &mut [u8]) -> usize
    requires { Small (length found.now.nodes.now) (length found.now.verdicts.now) found.now.gaps 0 }
    ensures { (table : Table) (f : Found) → Tells types.now found.now table f → Wrote out.old out.new 0 result (report_text table f) }
{
    let mut w = Writer::new(out, 0);
    write_report(&mut w, types, found);
    w.at
}

// The report in its buffer, or refusal 11: it is measured first, over none of the buffer.
pub fn say(types: &Types<'_>, found: &Findings<'_>, report: &mut [u8]) -> Answer
    requires { Small (length found.now.nodes.now) (length found.now.verdicts.now) found.now.gaps 0 }
    ensures { (table : Table) (f : Found) → Tells types.now found.now table f → Given (fitted (length report.old) (report_text table f)) result report.old report.new }
{
    let room = report.len();
    let answer = fit(room, put(types, found, &mut report[room..]));
    if let Answer::Report { .. } = answer {
        put(types, found, report);
    }
    answer
}
