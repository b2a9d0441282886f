// `check` for programs in C and Rust, which the static library of block_c exports.
ghost use Rattle.block.specs.Called.{Called};

use crate::check;
use numbers::tell;

// The answer's number, 0 for a report; its line and the report's length through the last two.
pub fn gatesorrel_check(
    file: &[u8],
    scratch: &mut [u16],
    report: &mut [u8],
    line: &mut usize,
    length: &mut usize,
) -> u8
    ensures { Called file.now scratch.old report.old result line.new length.new report.new scratch.new }
{
    let r = check(file, scratch, report);
    tell(r, line, length)
}
