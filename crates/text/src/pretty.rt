// `pretty` and `pretty_tail` over rows in prefix order: two functions that call one another, the nodes left falling.
ghost use Rattle.std.specs.Prelude.{◌≡◌, ◌+◌, ◌*◌, ◌^◌, ◌<◌, ◌≤◌, length, get_or};

use cells::get;
use heads::Node;
use layout::lent::Types;
use looks::{closes, look, put_name};
use marks::{comma, dots, has_labels, is_bare, put_between, put_close, put_mark, put_open};
use naming::Look;
use writing::Writer;

// What is printed, and how: simplified patterns in prefix order with the table of their types, as the source's text or as the paste text.
// Each function that writes patterns answers the place after them.
#[derive(Clone, Copy)]
pub struct Printer<'a> {
    pub paste: bool,
    pub types: Types<'a>,
    pub nodes: &'a [u16],
}

impl Printer<'_> {
    ghost use Rattle.scope.specs.Text.{alone, in_tail};
    ghost use Rattle.looks.specs.Nodes.{mode_of};
    ghost use Rattle.text.specs.Rows.{held};
    ghost use Rattle.text.specs.Printing.{pattern_text, item_text, items_text, enclosed_text, square_text, cell_text, spelled_text, ctor_text, Many, FieldsOf, SpelledOf, CellOf, Printed, Room, Moved};

    // The node at p.
    fn node(&self, p: usize) -> u16
        ensures { result ≡ get_or self.now.nodes.now p 0 }
    {
        get(self.nodes, p)
    }

    // How many fields constructor i has: a byte, which `Types::arity` doesn't promise.
    fn arity(&self, i: usize) -> usize
        ensures value { result ≡ get_or self.now.types.arities.now i 0 }
        ensures upper_bound { result ≤ 255 }
    {
        usize::from(get(self.types.arities, i))
    }

    // Where the fields of constructor i begin: two bytes, which `Types::start` doesn't promise.
    fn start(&self, i: usize) -> usize
        ensures value { result ≡ get_or self.now.types.starts.now i 0 }
        ensures upper_bound { result ≤ 65535 }
    {
        usize::from(get(self.types.starts, i))
    }

    // The pattern of field i; where there are labels, behind its label: the label alone for a wildcard.
    #[cycle(printer)]
    fn field(&self, w: &mut Writer<'_>, labelled: bool, p: usize, i: usize) -> usize
        requires { Room (length self.now.nodes.now) p w.old.at 1 1022 }
        ensures moved { Moved (length self.now.nodes.now) p result w.old w.new 1 1 1022 }
        ensures printed { Printed (held self.now) (Many 1) p result w.old w.new (item_text (mode_of self.now.paste) (held self.now) labelled i) }
    {
        if !labelled {
            return self.pretty(w, p);
        }
        let node = self.node(p);
        put_mark(w, labelled, &self.types, i, node);
        if is_bare(labelled, node) {
            return p + 1;
        }
        self.pretty(w, p)
    }

    // The patterns of n fields, from field i on, with ", " between them.
    #[cycle(printer)]
    fn fields(&self, w: &mut Writer<'_>, labelled: bool, p: usize, i: usize, n: usize) -> usize
        requires room { Room (length self.now.nodes.now) p w.old.at n (1024 * n) }
        requires n_bound { i + n < 2 ^ 32 }
        ensures moved { Moved (length self.now.nodes.now) p result w.old w.new 0 n (1024 * n) }
        ensures printed { Printed (held self.now) (Many n) p result w.old w.new (items_text (mode_of self.now.paste) (held self.now) labelled i n) }
    {
        let mut q = p;
        for k in 0..n {
            put_between(w, k);
            q = self.field(w, labelled, q, i + k);
        }
        q
    }

    // The patterns of n fields in brackets.
    #[cycle(printer)]
    fn enclosed(&self, w: &mut Writer<'_>, labelled: bool, p: usize, i: usize, n: usize) -> usize
        requires room { Room (length self.now.nodes.now) p w.old.at 255 261632 }
        requires n_bound { n < 256 }
        requires i_bound { i < 65536 }
        ensures moved { Moved (length self.now.nodes.now) p result w.old w.new 0 255 261632 }
        ensures printed { Printed (held self.now) (Many n) p result w.old w.new (enclosed_text (mode_of self.now.paste) (held self.now) labelled i n) }
    {
        put_open(w, labelled);
        let q = self.fields(w, labelled, p, i, n);
        put_close(w, labelled);
        q
    }

    // A list in its brackets.
    #[cycle(printer)]
    fn square(&self, w: &mut Writer<'_>, p: usize) -> usize
        requires { Room (length self.now.nodes.now) p w.old.at 255 262144 }
        ensures moved { Moved (length self.now.nodes.now) p result w.old w.new 0 255 262144 }
        ensures printed { Printed (held self.now) CellOf p result w.old w.new (square_text (mode_of self.now.paste)) }
    {
        w.byte(b'[');
        let q = self.cell(w, true, p);
        w.byte(b']');
        q
    }

    // A constructor's name and fields.
    #[cycle(printer)]
    fn spelled(&self, w: &mut Writer<'_>, p: usize, i: usize) -> usize
        requires room { Room (length self.now.nodes.now) p w.old.at 255 262144 }
        requires i_bound { i < 32767 }
        ensures moved { Moved (length self.now.nodes.now) p result w.old w.new 0 255 262144 }
        ensures printed { Printed (held self.now) (SpelledOf (mode_of self.now.paste) i) p result w.old w.new (spelled_text (mode_of self.now.paste) i) }
    {
        put_name(w, &self.types, i);
        let n = self.arity(i);
        if n == 0 {
            return p;
        }
        self.enclosed(w, has_labels(&self.types, i), p, self.start(i), n)
    }

    // A constructor by itself, whose arguments stand from p on. Never inlined: so a wildcard among its arguments costs no call.
    #[cycle(printer)]
    #[inline(never)]
    fn ctor(&self, w: &mut Writer<'_>, p: usize, i: usize) -> usize
        requires room { Room (length self.now.nodes.now) p w.old.at 255 262144 }
        requires i_bound { i < 32767 }
        ensures moved { Moved (length self.now.nodes.now) p result w.old w.new 0 255 262144 }
        ensures printed { Printed (held self.now) (FieldsOf i) p result w.old w.new (ctor_text (mode_of self.now.paste) i) }
    {
        match look(self.paste, &self.types, i) {
            Look::Round => self.enclosed(w, false, p, 0, self.arity(i)),
            Look::Square => self.square(w, p),
            Look::Spelled => self.spelled(w, p, i),
        }
    }

    // The text of the pattern at p. A literal is never missing, and has no text.
    #[cycle(printer)]
    pub fn pretty(&self, w: &mut Writer<'_>, p: usize) -> usize
        requires { Room (length self.now.nodes.now) p w.old.at 1 512 }
        ensures moved { Moved (length self.now.nodes.now) p result w.old w.new 1 1 512 }
        ensures printed { Printed (held self.now) (Many 1) p result w.old w.new (pattern_text (mode_of self.now.paste) alone) }
    {
        match Node::from(self.node(p)) {
            Node::Wildcard => {
                w.byte(b'_');
                p + 1
            }
            Node::Constructor(c) => self.ctor(w, p + 1, usize::from(c) - 1),
            Node::Literal(_) => p + 1,
        }
    }

    // The first cell of a list, or a further one in the same brackets: an element, then the tail.
    #[cycle(printer)]
    fn cell(&self, w: &mut Writer<'_>, first: bool, p: usize) -> usize
        requires { Room (length self.now.nodes.now) p w.old.at 255 131072 }
        ensures moved { Moved (length self.now.nodes.now) p result w.old w.new 0 255 131072 }
        ensures printed { Printed (held self.now) CellOf p result w.old w.new (cell_text (mode_of self.now.paste) first) }
    {
        let q = self.pretty(w, p);
        if closes(first, self.paste, &self.types, self.node(q)) {
            return q + 1;
        }
        comma(w);
        self.pretty_tail(w, q)
    }

    // The text of the pattern at p as the tail of a list.
    #[cycle(printer)]
    fn pretty_tail(&self, w: &mut Writer<'_>, p: usize) -> usize
        requires { Room (length self.now.nodes.now) p w.old.at 1 512 }
        ensures moved { Moved (length self.now.nodes.now) p result w.old w.new 1 1 512 }
        ensures printed { Printed (held self.now) (Many 1) p result w.old w.new (pattern_text (mode_of self.now.paste) in_tail) }
    {
        let c = match Node::from(self.node(p)) {
            Node::Wildcard => {
                dots(w);
                return p + 1;
            }
            Node::Constructor(c) => c,
            Node::Literal(_) => return p + 1,
        };
        let i = usize::from(c) - 1;
        match look(self.paste, &self.types, i) {
            Look::Square => self.cell(w, false, p + 1),
            _ => self.ctor(w, p + 1, i),
        }
    }
}
