// Why a file is refused (document 01, "What is refused, and when").

ghost use Rattle.std.specs.Prelude.{◌≡◌};
ghost use Rattle.scope.specs.Numbers.{number_of};

// In the document's order, which is that of its numbers.
#[derive(Clone, Copy, Debug, PartialEq, Eq)]
pub enum Refusal {
    // 1: too little scratch is lent
    Scratch,
    // 2: the file is too long
    File,
    // 3: a line's hexadecimal
    Line,
    // 4: a frame's shape
    Frame,
    // 5: the order of frames
    Order,
    // 6: too many types, constructors or clauses
    Many,
    // 7: the type table
    Table,
    // 8: a pattern does not suit its type
    Suit,
    // 9: too many nodes
    Nodes,
    // 10: too much work
    Work,
    // 11: the report is longer than its buffer
    Buffer,
}

// The document's number.
impl From<Refusal> for u8 {
    ghost from_gives = { λ r n. n ≡ number_of r };

    fn from(r: Refusal) -> u8 {
        match r {
            Refusal::Scratch => 1,
            Refusal::File => 2,
            Refusal::Line => 3,
            Refusal::Frame => 4,
            Refusal::Order => 5,
            Refusal::Many => 6,
            Refusal::Table => 7,
            Refusal::Suit => 8,
            Refusal::Nodes => 9,
            Refusal::Work => 10,
            Refusal::Buffer => 11,
        }
    }
}
