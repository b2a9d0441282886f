// What the program prints for a file.

ghost use Rattle.std.specs.Prelude.{◌++◌, ◌≤◌, length};
ghost use Rattle.scope.specs.Lists.{bytes as text};
ghost use Rattle.scope.specs.Text.{decimal as decimalText};
ghost use Rattle.writing.specs.Writing.{Wrote};
ghost use Rattle.block.specs.Print.{Prints};

use crate::check;
use scope::Answer;
use wording::refusal;
use writing::Writer;

// The line of a refusal at the front of the buffer, cut at its end; its length.
fn put_refusal(number: u8, line: usize, out: &mut [u8]) -> usize
    ensures wrote { Wrote out.old out.new 0 result (text "refused " ++ decimalText number ++ text " line " ++ decimalText line ++ text "\n") }
    ensures upper_bound { result ≤ 64 }
{
    let mut w = Writer::new(out, 0);
    refusal(&mut w, number, line);
    w.at
}

// The report, or `refused N line K`, at the front of the buffer; its length.
pub fn print(file: &[u8], scratch: &mut [u16], out: &mut [u8]) -> usize
    ensures prints { Prints file.now scratch.old out.old result out.new scratch.new }
    ensures upper_bound { 64 ≤ length out.old → result ≤ length out.old }
{
    match check(file, scratch, out) {
        Answer::Report { long } => long,
        Answer::Refused { number, line } => put_refusal(number, line, out),
    }
}
