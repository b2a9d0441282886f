// The check of a file: the one entry, which asks nothing of its caller.
#![tactic(auto)]

ghost use Rattle.block.specs.Check.{Checked};

use crate::driver::answer;
use cells::clear;
use scope::Answer;
use scope::refusal::Refusal;

mod driver;
pub mod library;
pub mod print;

// The answer for a file, with the report in the report buffer; the scratch is zero afterwards.
pub fn check(file: &[u8], scratch: &mut [u16], report: &mut [u8]) -> Answer
    ensures { Checked file.now scratch.old report.old result report.new scratch.new }
{
    if scratch.len() < 16384 {
        clear(scratch);
        return Answer::refused(Refusal::Scratch, 0);
    }
    answer(file, scratch, report)
}
