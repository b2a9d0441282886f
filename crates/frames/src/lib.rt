// One reader standing over a line: a frame's bytes are read through it. Its shape, and the tests of it before what it adds.
#![tactic(auto)]

ghost use Rattle.std.specs.Prelude.{◌≡◌, ◌+◌, ◌≤◌, ◌<◌, length, get_or};
ghost use Rattle.scope.specs.Frames.{frame};
ghost use Rattle.fields.specs.Places.{said_read, said_at};
ghost use Rattle.frames.specs.Wholes.{whole};
ghost use Rattle.frames.specs.Lines.{said_framed, frame_of};

use crate::shape::frame;
use cells::get;
use fields::Fault;

pub mod admitting;
pub mod shape;

// The line's bytes, and a place in them.
#[derive(Clone, Copy)]
pub struct Reader<'a> {
    pub line: &'a [u8],
    pub at: usize,
}

impl<'a> Reader<'a> {
    // At the line's first byte.
    fn over(line: &'a [u8]) -> Reader<'a>
        ensures { (result.line ≡ line.entry) × (result.at ≡ 0) }
    {
        Reader { line, at: 0 }
    }

    // The byte at the place.
    fn kind(self) -> u8
        ensures { result ≡ get_or self.entry.line.now self.entry.at 0 }
    {
        get(self.line, self.at)
    }

    // At the next byte.
    fn past(self) -> Reader<'a>
        requires { self.at < length self.line.now }
        ensures { (result.line ≡ self.entry.line) × (result.at ≡ self.entry.at + 1) }
    {
        Reader {
            line: self.line,
            at: self.at + 1,
        }
    }

    // What comes after the kind of a frame, from the place to the line's end.
    fn rest(self, kind: u8) -> Result<usize, Fault>
        requires at_in_bounds { self.at ≤ length self.line.now }
        requires line_len_bound { length self.line.now ≤ 65536 }
        ensures { said_read result ≡ said_at self.entry.line.now self.entry.at (λ bs. whole (frame kind bs)) }
    {
        frame(self.line, self.at, kind)
    }
}

// A frame as read: its kind, and the place that was reached or the place at fault.
#[derive(Clone, Copy, Debug, PartialEq, Eq)]
pub struct Framed {
    pub kind: u8,
    pub end: Result<usize, Fault>,
}

// The frame that a line holds.
pub fn read_frame(line: &[u8]) -> Framed
    requires line_nonzero { 0 < length line.now }
    requires line_len_bound { length line.now ≤ 65536 }
    ensures { said_framed result ≡ frame_of line.now }
{
    let r = Reader::over(line);
    let kind = r.kind();
    Framed {
        kind,
        end: r.past().rest(kind),
    }
}
