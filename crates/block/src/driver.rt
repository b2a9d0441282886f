// The driver: a file is read, and its block is judged.

ghost use Rattle.std.specs.Prelude.{◌≡◌, ◌≤◌, length, replicate};
ghost use Rattle.scope.specs.Answer.{outcome};
ghost use Rattle.fitting.specs.Given.{Given};

use cells::clear;
use judging::judged;
use layout::tables::Store;
use reading::file::read;
use scope::Answer;

// The file read, then judged.
pub fn answer(file: &[u8], scratch: &mut [u16], report: &mut [u8]) -> Answer
    requires { 16384 ≤ length scratch.old }
    ensures given { Given (outcome file.now (length scratch.old) (length report.old)) result report.old report.new }
    ensures scratch_after { scratch.new ≡ replicate (length scratch.old) 0 }
{
    let mut store = Store::new();
    match read(file, &mut store) {
        Err(fault) => {
            clear(scratch);
            Answer::refused(fault.why, fault.line)
        }
        Ok(parsed) => {
            let b = store.rows.lend(store.tables.lend(&store.bytes));
            judged(&b, &store.rows.starts[..parsed.clauses], scratch, report)
        }
    }
}
