// Bytes and byte strings, pasted at a place and cut at the buffer's end.
#![tactic(auto)]

ghost use Rattle.std.specs.Prelude.{[], ◌∷◌, ◌+◌, ◌<◌, ◌^◌, ◌≡◌, length};

use cells::put;

// A lent buffer, and the place where the next text goes.
#[derive(Drop)]
pub struct Writer<'a> {
    pub out: &'a mut [u8],
    pub at: usize,
}

impl<'a> Writer<'a> {
    ghost use Rattle.writing.specs.Writing.{Writes};

    // A writer that begins at a place.
    pub fn new(out: &'a mut [u8], at: usize) -> Writer<'a>
        ensures same { result.out.ghost_name ≡ out.entry.ghost_name }
        ensures holds { result.out.now ≡ out.old }
        ensures begins { result.at ≡ at }
    {
        Writer { out, at }
    }

    // One byte.
    pub fn byte(&mut self, b: u8)
        requires { self.old.at + 1 < 2 ^ 64 }
        ensures { Writes self.old self.new (b ∷ []) }
    {
        self.at = put(self.out, self.at, b);
    }

    // A byte string.
    pub fn all(&mut self, text: &[u8])
        requires { self.old.at + length text.now < 2 ^ 64 }
        ensures { Writes self.old self.new text.now }
    {
        for &b in text {
            self.byte(b);
        }
    }
}
