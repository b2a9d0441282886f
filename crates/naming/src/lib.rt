// How a constructor looks in a text, and where a list's end is left out.
#![tactic(auto)]

ghost use Rattle.std.specs.Prelude.{◌≡◌, cond, ◌&&◌, ◌||◌};
ghost use Rattle.scope.specs.Text.{look_by_name, look_by_kind};
ghost use Rattle.naming.specs.Naming.{look_of};

use names::{contains, same};
use scope::kinds::TypeKind;

#[derive(Clone, Copy, Debug, PartialEq, Eq)]
pub enum Look {
    Round,
    Square,
    Spelled,
}

// By the name.
fn look_by_name(name: &[u8]) -> Look
    ensures { result ≡ look_of (look_by_name name.now) }
{
    if contains(b"__Tuple", name) {
        Look::Round
    } else if same(name, b"::") {
        Look::Square
    } else {
        Look::Spelled
    }
}

// By the type's kind.
fn look_by_kind(kind: u8, c: usize) -> Look
    ensures { result ≡ look_of (look_by_kind kind c) }
{
    match TypeKind::try_from(kind) {
        Ok(TypeKind::Tuple | TypeKind::Pair) => Look::Round,
        Ok(TypeKind::List) if c == 0 => Look::Square,
        _ => Look::Spelled,
    }
}

// How a constructor looks: by its type's kind in the paste text, by its name in the source's.
pub fn look_in(paste: bool, kind: u8, c: usize, name: &[u8]) -> Look
    ensures { result ≡ look_of (cond paste (look_by_kind kind c) (look_by_name name.now)) }
{
    if paste {
        look_by_kind(kind, c)
    } else {
        look_by_name(name)
    }
}

// Whether a tail is left out: "[]" after the first element, and in the paste text after a further one.
pub fn leaves_out(first: bool, paste: bool, nil: bool) -> bool
    ensures { result ≡ ((first || paste) && nil) }
{
    nil && (first || paste)
}
