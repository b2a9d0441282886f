// `check` for programs in C and Rust, as the static library exports it: library/gatesorrel.h.
#![tactic(auto)]

ghost use Rattle.block.specs.Called.{Called};

// The answer's number, 0 for a report; its line and the report's length through the last two.
#[unsafe(no_mangle)]
pub extern "C" fn gatesorrel_check(
    file: &[u8],
    scratch: &mut [u16],
    report: &mut [u8],
    line: &mut usize,
    length: &mut usize,
) -> u8
    ensures { Called file.now scratch.old report.old result line.new length.new report.new scratch.new }
{
    block::library::gatesorrel_check(file, scratch, report, line, length)
}
