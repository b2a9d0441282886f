// Many files in one process: each with its length before it in decimal and a line feed, and so each answer. After a length may stand a
// blank, the cells of scratch to lend, a blank, and the bytes of report to lend; else all of both are lent.
#![tactic(auto)]

ghost use Rattle.std.specs.Prelude.{◌≤◌, length};

use block::print::print;

// A number of one to six digits, if one is there, and the byte after it, if there is one.
#[derive(Clone, Copy)]
struct Number {
    value: Option<usize>,
    after: Option<u8>,
}

// Why no further file is answered: there is none, there is no length before it, or the input ends within it.
#[derive(Clone, Copy)]
enum Stop {
    End,
    NoLength,
    CutShort,
}

// The next byte of the input.
fn next() -> Option<u8> {
    let mut one = [0u8; 1];
    if io::read_full(0, &mut one) == 0 {
        return None;
    }
    Some(one[0])
}

// What a byte stands for as a digit.
fn digit(byte: u8) -> Option<u8> {
    if byte.is_ascii_digit() {
        return Some(byte - b'0');
    }
    None
}

// A number is read, and the byte after it.
fn read_number() -> Number {
    let mut value: usize = 0;
    let mut after = None;
    for digits in 0..7 {
        after = next();
        let Some(d) = after.and_then(digit) else {
            let value = if digits == 0 { None } else { Some(value) };
            return Number { value, after };
        };
        value = (value * 10 + usize::from(d)) % 1_000_000;
    }
    Number { value: None, after }
}

// n bytes of the input, read and left.
fn skip(n: usize) {
    for _ in 0..n {
        next();
    }
}

// The first m bytes of a report, with their number before them.
fn write_first(report: &[u8], m: usize)
    requires { m ≤ length report.now }
{
    io::print_decimal(1, m as u64);
    io::write_all(1, b"\n");
    io::write_all(1, &report[..m]);
}

// The answer for a file of n bytes, of which 49,153 are enough to refuse it, as far as the lent buffer holds it.
fn answer(n: usize, cells: usize, room: usize) -> Result<(), Stop>
    requires cells_bound { cells ≤ 16384 }
    requires room_bound { room ≤ 32768 }
{
    let mut file = [0u8; 49153];
    let mut scratch = [0u16; 16384];
    let mut report = [0u8; 32768];
    let k = n.min(49153);
    if io::read_full(0, &mut file[..k]) < k {
        return Err(Stop::CutShort);
    }
    skip(n - k);
    let m = print(&file[..k], &mut scratch[..cells], &mut report[..room]);
    write_first(&report, m.min(room));
    Ok(())
}

// The answer for a file of n bytes, after what is to be lent.
fn lent(n: usize) -> Result<(), Stop> {
    let cells = read_number();
    let (Some(many), Some(b' ')) = (cells.value, cells.after) else {
        return Err(Stop::NoLength);
    };
    let room = read_number();
    let (Some(long), Some(b'\n')) = (room.value, room.after) else {
        return Err(Stop::NoLength);
    };
    answer(n, many.min(16384), long.min(32768))
}

// One file of the input.
fn step() -> Result<(), Stop> {
    let length = read_number();
    match (length.value, length.after) {
        (Some(n), Some(b' ')) => lent(n),
        (Some(n), Some(b'\n')) => answer(n, 16384, 32768),
        (None, None) => Err(Stop::End),
        _ => Err(Stop::NoLength),
    }
}

fn main() {
    for _ in 0..u64::MAX {
        if let Err(stop) = step() {
            match stop {
                Stop::End => {}
                Stop::NoLength => {
                    io::write_all(2, b"replay: no length before a file\n");
                }
                Stop::CutShort => {
                    io::write_all(2, b"replay: the input ends within a file\n");
                }
            }
            return;
        }
    }
}
