// What stands around, between and before the patterns of a text: brackets, commas, dots and labels.
#![tactic(auto)]

ghost use Rattle.std.specs.Prelude.{◌≡◌, not, ◌&&◌, ◌+◌, ◌^◌, ◌<◌, ◌≤◌, get_or, eqb};
ghost use Rattle.scope.specs.Lists.{bytes as text};
ghost use Rattle.layout.specs.Types.{text_at};
ghost use Rattle.writing.specs.Writing.{Writes};
ghost use Rattle.marks.specs.Marks.{between_text, open_text, close_text, field_mark};

use layout::lent::Types;
use looks::{is_wild, put_label};
use wording::either;
use writing::Writer;

// What stands between two patterns.
pub fn comma(w: &mut Writer<'_>)
    requires { w.old.at + 2 < 2 ^ 64 }
    ensures { Writes w.old w.new (text ", ") }
{
    w.all(b", ");
}

// What stands before pattern k of several: nothing before the first, whose k is 0.
pub fn put_between(w: &mut Writer<'_>, k: usize)
    requires { w.old.at + 2 < 2 ^ 64 }
    ensures wrote { Writes w.old w.new (between_text k) }
    ensures upper_bound { w.new.at ≤ w.old.at + 2 }
{
    if k != 0 {
        comma(w);
    }
}

// A wildcard as the tail of a list.
pub fn dots(w: &mut Writer<'_>)
    requires { w.old.at + 2 < 2 ^ 64 }
    ensures { Writes w.old w.new (text "..") }
{
    w.all(b"..");
}

// The bracket before a constructor's arguments.
pub fn put_open(w: &mut Writer<'_>, labelled: bool)
    requires { w.old.at + 4 < 2 ^ 64 }
    ensures wrote { Writes w.old w.new (open_text labelled) }
    ensures upper_bound { w.new.at ≤ w.old.at + 4 }
{
    either(w, labelled, b" { ", b"(");
}

// The bracket after them.
pub fn put_close(w: &mut Writer<'_>, labelled: bool)
    requires { w.old.at + 3 < 2 ^ 64 }
    ensures wrote { Writes w.old w.new (close_text labelled) }
    ensures upper_bound { w.new.at ≤ w.old.at + 3 }
{
    either(w, labelled, b" }", b")");
}

// Whether the constructor with the number i has labels: whether one stands at its first field.
pub fn has_labels(types: &Types<'_>, i: usize) -> bool
    ensures { result ≡ not (eqb (get_or types.now.labels.now (get_or types.now.starts.now i 0) 0) 0) }
{
    types.label(types.start(i)) != 0
}

// What stands before a node: the label of field i, where there are labels.
pub fn put_mark(w: &mut Writer<'_>, labelled: bool, types: &Types<'_>, i: usize, node: u16)
    requires { w.old.at + 257 < 2 ^ 64 }
    ensures wrote { Writes w.old w.new (field_mark labelled (text_at types.now.bytes.now (get_or types.now.labels.now i 0)) node) }
    ensures upper_bound { w.new.at ≤ w.old.at + 257 }
{
    if labelled {
        put_label(w, types, types.label(i), node);
    }
}

// Whether the label says all: the node is a wildcard.
pub fn is_bare(labelled: bool, node: u16) -> bool
    ensures { result ≡ (labelled && eqb node 0) }
{
    labelled && is_wild(node)
}
