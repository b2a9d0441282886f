// What stands at a node: "[]", or a constructor that looks so and is named so.
#![tactic(auto)]

ghost use Rattle.std.specs.Prelude.{◌≡◌, ◌&&◌, ◌||◌, ◌+◌, ◌/◌, ◌%◌, ◌^◌, ◌<◌, ◌≤◌, length, get_or, eqb};
ghost use Rattle.scope.specs.Types.{Ref, Table};
ghost use Rattle.scope.specs.Constructors.{ctor_at};
ghost use Rattle.layout.specs.Types.{text_at};
ghost use Rattle.writing.specs.Writing.{Writes};
ghost use Rattle.naming.specs.Naming.{fixed_names, name_in, NameAt, look_of};
ghost use Rattle.looks.specs.Nodes.{mode_of, look_in, nil_node, label_text};

use heads::Node;
use layout::lent::Types;
use layout::name_at;
use naming::{Look, leaves_out, look_in};
use scope::kinds::TypeKind;
use writing::Writer;

// Whether a node is a wildcard.
pub fn is_wild(node: u16) -> bool
    ensures { result ≡ eqb node 0 }
{
    matches!(Node::from(node), Node::Wildcard)
}

// Whether a node is "[]" of a list.
fn is_nil(types: &Types<'_>, node: u16) -> bool
    ensures { result ≡ nil_node types.now.kinds.now node }
{
    if is_wild(node) {
        return false;
    }
    let i = usize::from(node) - 1;
    TypeKind::try_from(types.kind(i / 32)) == Ok(TypeKind::List) && i % 32 == 1
}

// Whether a tail is left out: "[]" after the first element, and in the paste text after a further one.
pub fn closes(first: bool, paste: bool, types: &Types<'_>, tail: u16) -> bool
    ensures { result ≡ ((first || paste) && nil_node types.now.kinds.now tail) }
{
    leaves_out(first, paste, is_nil(types, tail))
}

// The name of constructor c of a type of this kind: a part of the fixed names or of the decoded bytes.
pub fn name_of<'a>(fixed: &'a [u8], bytes: &'a [u8], kind: u8, c: usize, place: usize) -> &'a [u8]
    requires { fixed.now ≡ fixed_names }
    ensures result_value { result.now ≡ name_in bytes.now kind c place }
    ensures result_value_2 { (table : Table) (t : Ref) → NameAt bytes.now kind c place table t → result.now ≡ (ctor_at table t c).name }
    ensures result_len_bound { length result.now ≤ 255 }
{
    let kind = TypeKind::try_from(kind);
    if kind == Ok(TypeKind::List) {
        return if c == 0 { &fixed[0..2] } else { &fixed[2..4] };
    }
    if kind == Ok(TypeKind::Data) {
        return name_at(bytes, place);
    }
    &fixed[4..11]
}

// The name of the constructor with the number i: a part of the fixed names or of the decoded bytes.
fn ctor_name<'a>(fixed: &'a [u8], types: &'a Types<'_>, i: usize) -> &'a [u8]
    requires { fixed.now ≡ fixed_names }
    ensures result_value { result.now ≡ name_in types.now.bytes.now (get_or types.now.kinds.now (i / 32) 0) (i % 32) (get_or types.now.names.now i 0) }
    ensures result_len_bound { length result.now ≤ 255 }
{
    name_of(
        fixed,
        types.bytes,
        types.kind(i / 32),
        i % 32,
        types.name(i),
    )
}

// How the constructor with the number i looks.
pub fn look(paste: bool, types: &Types<'_>, i: usize) -> Look
    ensures { result ≡ look_of (look_in (mode_of paste) types.now.bytes.now (get_or types.now.kinds.now (i / 32) 0) (i % 32) (get_or types.now.names.now i 0)) }
{
    let fixed = names::fixed_names();
    let name = ctor_name(&fixed, types, i);
    look_in(paste, types.kind(i / 32), i % 32, name)
}

// The name of the constructor with the number i, written.
pub fn put_name(w: &mut Writer<'_>, types: &Types<'_>, i: usize)
    requires { w.old.at + 255 < 2 ^ 64 }
    ensures wrote { Writes w.old w.new (name_in types.now.bytes.now (get_or types.now.kinds.now (i / 32) 0) (i % 32) (get_or types.now.names.now i 0)) }
    ensures upper_bound { w.new.at ≤ w.old.at + 255 }
{
    let fixed = names::fixed_names();
    w.all(ctor_name(&fixed, types, i));
}

// The label that stands at a place, and a colon unless the node after it is a wildcard.
pub fn put_label(w: &mut Writer<'_>, types: &Types<'_>, label: usize, node: u16)
    requires { w.old.at + 257 < 2 ^ 64 }
    ensures wrote { Writes w.old w.new (label_text (text_at types.now.bytes.now label) node) }
    ensures upper_bound { w.new.at ≤ w.old.at + 257 }
{
    w.all(name_at(types.bytes, label));
    if !is_wild(node) {
        w.all(b": ");
    }
}
