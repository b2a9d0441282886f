// The type table and the simplified patterns as lent slices, in one value each: what every reader of them takes.

ghost use Rattle.std.specs.Prelude.{◌≡◌, length, get_or, MatchOption};

use cells::get;

// The type table: constructor c of type t has the number 32 t + c. Names, labels and literals stand among the bytes.
#[derive(Clone, Copy)]
pub struct Types<'a> {
    pub bytes: &'a [u8],
    pub kinds: &'a [u8],
    pub counts: &'a [u8],
    pub arities: &'a [u8],
    pub starts: &'a [u16],
    pub names: &'a [u16],
    pub fields: &'a [u8],
    pub labels: &'a [u16],
}

impl Types<'_> {
    // The kind of type t.
    pub fn kind(&self, t: usize) -> u8
        ensures { result ≡ get_or self.now.kinds.now t 0 }
    {
        get(self.kinds, t)
    }

    // How many constructors type t has.
    pub fn count(&self, t: usize) -> usize
        ensures { result ≡ get_or self.now.counts.now t 0 }
    {
        usize::from(get(self.counts, t))
    }

    // How many fields constructor i has.
    pub fn arity(&self, i: usize) -> usize
        ensures { result ≡ get_or self.now.arities.now i 0 }
    {
        usize::from(get(self.arities, i))
    }

    // Where the fields of constructor i begin.
    pub fn start(&self, i: usize) -> usize
        ensures { result ≡ get_or self.now.starts.now i 0 }
    {
        usize::from(get(self.starts, i))
    }

    // Where the name of constructor i stands.
    pub fn name(&self, i: usize) -> usize
        ensures { result ≡ get_or self.now.names.now i 0 }
    {
        usize::from(get(self.names, i))
    }

    // The type of field f.
    pub fn field(&self, f: usize) -> usize
        ensures { result ≡ get_or self.now.fields.now f 0 }
    {
        usize::from(get(self.fields, f))
    }

    // Where the label of field f stands, or 0.
    pub fn label(&self, f: usize) -> usize
        ensures { result ≡ get_or self.now.labels.now f 0 }
    {
        usize::from(get(self.labels, f))
    }
}

// The type table, and rows of simplified patterns in prefix order: `left` is how many patterns of its row are left from a node on.
#[derive(Clone, Copy)]
pub struct Block<'a> {
    pub types: Types<'a>,
    pub nodes: &'a [u16],
    pub left: &'a [u16],
}

impl<'a> Block<'a> {
    // The same block where it is level: nodes and `left` are equally long, and nodes cut at that length, so that one test does for a place in both.
    #[inline(always)]
    pub fn level(&self) -> Option<Block<'a>>
        ensures { MatchOption result (length self.now.nodes.now ≡ length self.now.left.now → ⊥) (λ b. (length self.now.nodes.now ≡ length self.now.left.now) × (b.types ≡ self.now.types) × (b.nodes.now ≡ self.now.nodes.now) × (b.left.now ≡ self.now.left.now)) }
    {
        if self.nodes.len() == self.left.len() {
            let nodes = &self.nodes[..self.left.len()];
            return Some(Block { nodes, ..*self });
        }
        None
    }

    // The node at p.
    pub fn node(&self, p: usize) -> u16
        ensures { result ≡ get_or self.now.nodes.now p 0 }
    {
        get(self.nodes, p)
    }

    // How many patterns of its row are left from p on.
    pub fn left(&self, p: usize) -> usize
        ensures { result ≡ get_or self.now.left.now p 0 }
    {
        usize::from(get(self.left, p))
    }
}
