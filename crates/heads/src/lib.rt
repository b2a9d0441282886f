// What a node's number says: 0 is a wildcard, from 32,768 on it is a literal, and between them stand the constructors, 32 for each type.
#![tactic(auto)]

ghost use Rattle.std.specs.Prelude.{◌≡◌, ◌-◌, ◌%◌, ◌<◌};
ghost use Rattle.heads.specs.Heads.{SaysNode};

// The number of a wildcard.
pub const WILDCARD: u16 = 0;

// The first number of a literal.
pub const LITERALS: u16 = 32768;

// What stands at a node.
#[derive(Clone, Copy, Debug, PartialEq, Eq)]
pub enum Node {
    Wildcard,
    // a constructor, by its own number
    Constructor(u16),
    // a literal, by its place among the bytes
    Literal(u16),
}

impl From<u16> for Node {
    ghost from_gives = { SaysNode };

    fn from(number: u16) -> Node {
        match number {
            WILDCARD => Node::Wildcard,
            1..LITERALS => Node::Constructor(number),
            _ => Node::Literal(number - LITERALS),
        }
    }
}

// The first constructor of the type of constructor h.
pub fn base(h: u16) -> u16
    requires { 0 < h }
    ensures { result ≡ h - (h - 1) % 32 }
{
    h - (h - 1) % 32
}
