// A line's hexadecimal: refusal 3.
#![tactic(auto)]

ghost use Rattle.std.specs.Prelude.{◌≡◌, true, ◌&&◌, ◌+◌, ◌-◌, ◌*◌, ◌≤◌, ◌<◌, length, take, drop, ltb};
ghost use Rattle.std.proofs.lemmas.List.Edits.{sets};
ghost use Rattle.scope.specs.Lists.{all};
ghost use Rattle.scope.specs.Lines.{ended, is_hex, hex, unhex, is_line};
ghost use Rattle.hexadecimal.specs.Digits.{digits, said_line, Lined};

use lengths::is_line_length;
use letters::all_digits;

// A line as read: the place of the next one, and the place after its bytes.
#[derive(Clone, Copy, Debug, PartialEq, Eq)]
pub struct Line {
    pub next: usize,
    pub to: usize,
}

// 3: no line begins there.
#[derive(Clone, Copy, Debug, PartialEq, Eq)]
pub struct BadLine;

// The value of a digit.
#[tactic(auto, unfolding(scope::specs::Lines::is_hex, scope::specs::Lines::hex))]
fn hex(d: u8) -> u8
    requires { is_hex d ≡ true }
    ensures value { result ≡ hex d }
    ensures upper_bound { result < 16 }
{
    if d <= b'9' { d - b'0' } else { d - b'a' + 10 }
}

// The byte that two digits say.
fn byte_of(d: u8, e: u8) -> u8
    requires d_value { is_hex d ≡ true }
    requires e_value { is_hex e ≡ true }
    ensures { result ≡ 16 * hex d + hex e }
{
    16 * hex(d) + hex(e)
}

// The place of the first line feed from `from` on, or the end.
fn line_end(file: &[u8], from: usize) -> usize
    requires { from ≤ length file.now }
    ensures { result ≡ from + length (digits (drop from file.now)) }
{
    match file[from..].iter().position(|&b| b == b'\n') {
        Some(n) => from + n,
        None => file.len(),
    }
}

// Whether the characters from `from` to `end`, where a line feed or the file's end is, are a line.
#[tactic(auto, unfolding(scope::specs::Lines::is_line))]
fn is_line(file: &[u8], from: usize, end: usize) -> bool
    requires { (from ≤ end) × (end ≤ length file.now) }
    ensures { result ≡ (ltb end (length file.now) && is_line (ended (take (end - from) (drop from file.now)))) }
{
    end < file.len() && is_line_length(end - from) && all_digits(true, &file[from..end])
}

// The bytes that the digits say, written to out from `at` on; the place after them.
fn decode(ds: &[u8], out: &mut [u8], at: usize) -> usize
    requires ds_value { all is_hex ds.now ≡ true }
    requires ds_bound { 2 * at + length ds.now ≤ 2 * length out.old }
    ensures value { result ≡ at + length (unhex ds.now) }
    ensures out_after { out.new ≡ sets out.old at (unhex ds.now) }
{
    let n = ds.len() / 2;
    for k in 0..n {
        out[at + k] = byte_of(ds[2 * k], ds[2 * k + 1]);
    }
    at + n
}

// The line that begins at `from`: its bytes, written to out from `at` on. A line that is refused writes nothing.
pub fn read_line(file: &[u8], from: usize, out: &mut [u8], at: usize) -> Result<Line, BadLine>
    requires from_in_bounds { from < length file.now }
    requires at_bound { 2 * at ≤ from }
    requires file_len_bound { length file.now ≤ 2 * length out.old }
    ensures { Lined file.now from out.old at (said_line result) out.new }
{
    let end = line_end(file, from);
    if !is_line(file, from, end) {
        return Err(BadLine);
    }
    let to = decode(&file[from..end], out, at);
    Ok(Line { next: end + 1, to })
}
