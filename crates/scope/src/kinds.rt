// The kinds of frames, types and patterns, by the byte that stands for each in a file (document 01, "Frames").

ghost use Rattle.scope.specs.Numbers.{SaysFrame, SaysType, SaysPattern};

// A byte that stands for no kind.
#[derive(Clone, Copy, Debug, PartialEq, Eq)]
pub struct Unknown(pub u8);

// What a line says.
#[derive(Clone, Copy, Debug, PartialEq, Eq)]
pub enum FrameKind {
    TypeFrame,
    ConstructorFrame,
    SubjectFrame,
    ClauseFrame,
    EndFrame,
}

impl TryFrom<u8> for FrameKind {
    type Error = Unknown;

    ghost try_from_gives = { SaysFrame };

    fn try_from(byte: u8) -> Result<FrameKind, Unknown> {
        match byte {
            1 => Ok(FrameKind::TypeFrame),
            2 => Ok(FrameKind::ConstructorFrame),
            3 => Ok(FrameKind::SubjectFrame),
            4 => Ok(FrameKind::ClauseFrame),
            5 => Ok(FrameKind::EndFrame),
            _ => Err(Unknown(byte)),
        }
    }
}

// What a type frame declares.
#[derive(Clone, Copy, Debug, PartialEq, Eq)]
pub enum TypeKind {
    Integer,
    ByteString,
    Opaque,
    List,
    Tuple,
    Pair,
    Data,
}

impl TryFrom<u8> for TypeKind {
    type Error = Unknown;

    ghost try_from_gives = { SaysType };

    fn try_from(byte: u8) -> Result<TypeKind, Unknown> {
        match byte {
            0 => Ok(TypeKind::Integer),
            1 => Ok(TypeKind::ByteString),
            2 => Ok(TypeKind::Opaque),
            3 => Ok(TypeKind::List),
            4 => Ok(TypeKind::Tuple),
            5 => Ok(TypeKind::Pair),
            6 => Ok(TypeKind::Data),
            _ => Err(Unknown(byte)),
        }
    }
}

// What a pattern begins with.
#[derive(Clone, Copy, Debug, PartialEq, Eq)]
pub enum PatternKind {
    Discard,
    Variable,
    Assign,
    Integer,
    ByteString,
    List,
    Constructor,
    Pair,
    Tuple,
}

impl TryFrom<u8> for PatternKind {
    type Error = Unknown;

    ghost try_from_gives = { SaysPattern };

    fn try_from(byte: u8) -> Result<PatternKind, Unknown> {
        match byte {
            0 => Ok(PatternKind::Discard),
            1 => Ok(PatternKind::Variable),
            2 => Ok(PatternKind::Assign),
            3 => Ok(PatternKind::Integer),
            4 => Ok(PatternKind::ByteString),
            5 => Ok(PatternKind::List),
            6 => Ok(PatternKind::Constructor),
            7 => Ok(PatternKind::Pair),
            8 => Ok(PatternKind::Tuple),
            _ => Err(Unknown(byte)),
        }
    }
}
