// Words and numbers: a number in decimal, one word or another, a word with its number, and the lines made of both: the calls, a refusal.
#![tactic(auto)]

ghost use Rattle.std.specs.Prelude.{cond, ◌++◌, ◌+◌, ◌≤◌, ◌<◌, ◌^◌, length};
ghost use Rattle.scope.specs.Lists.{bytes as text};
ghost use Rattle.scope.specs.Text.{decimal as decimalText};
ghost use Rattle.scope.specs.Report.{as_line as line_of};
ghost use Rattle.writing.specs.Writing.{Writes};

use itoa::Buffer;
use writing::Writer;

// A number in decimal, which has at most 20 digits.
fn decimal(w: &mut Writer<'_>, n: usize)
    requires { w.old.at + 32 < 2 ^ 64 }
    ensures wrote { Writes w.old w.new (decimalText n) }
    ensures upper_bound { w.new.at ≤ w.old.at + 20 }
{
    let mut digits = Buffer::new();
    w.all(digits.format(n).as_bytes());
}

// One word or the other.
pub fn either(w: &mut Writer<'_>, yes: bool, word: &[u8], other: &[u8])
    requires word_bound { w.old.at + length word.now < 2 ^ 64 }
    requires other_bound { w.old.at + length other.now < 2 ^ 64 }
    ensures wrote { Writes w.old w.new (cond yes word.now other.now) }
    ensures upper_bound { w.new.at ≤ w.old.at + length word.now + length other.now }
{
    w.all(if yes { word } else { other })
}

// A word, and a number after it.
pub fn numbered(w: &mut Writer<'_>, word: &[u8], n: usize)
    requires { w.old.at + length word.now + 32 < 2 ^ 64 }
    ensures wrote { Writes w.old w.new (word.now ++ decimalText n) }
    ensures upper_bound { w.new.at ≤ w.old.at + length word.now + 20 }
{
    w.all(word);
    decimal(w, n);
}

// The same at the end of a line.
pub fn ended(w: &mut Writer<'_>, word: &[u8], n: usize)
    requires { w.old.at + length word.now + 32 < 2 ^ 64 }
    ensures wrote { Writes w.old w.new (line_of (word.now ++ decimalText n)) }
    ensures upper_bound { w.new.at ≤ w.old.at + length word.now + 21 }
{
    numbered(w, word, n);
    w.byte(b'\n');
}

// `calls` counts both kinds.
pub fn calls_line(w: &mut Writer<'_>, first: usize, second: usize)
    requires { w.old.at + 64 < 2 ^ 62 }
    ensures { Writes w.old w.new (line_of (text "calls " ++ decimalText first ++ text " " ++ decimalText second)) }
{
    numbered(w, b"calls ", first);
    ended(w, b" ", second);
}

// What is printed for a refusal: its number and its line.
pub fn refusal(w: &mut Writer<'_>, number: u8, line: usize)
    requires { w.old.at + 64 < 2 ^ 62 }
    ensures wrote { Writes w.old w.new (text "refused " ++ decimalText number ++ text " line " ++ decimalText line ++ text "\n") }
    ensures upper_bound { w.new.at ≤ w.old.at + 64 }
{
    numbered(w, b"refused ", usize::from(number));
    ended(w, b" line ", line);
}
