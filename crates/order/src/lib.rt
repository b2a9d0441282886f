// Where in the order of frames a file is, and how much it may say: refusals 2, 5, 6 and 9.
#![tactic(auto)]

ghost use Rattle.std.specs.Prelude.{◌≡◌, ◌&&◌, ◌+◌, ◌≤◌, ltb, leb};
ghost use Rattle.scope.specs.Limits.{max_file, max_constructors, max_in_type, max_nodes};
ghost use Rattle.order.specs.Phases.{stands_in, closes_in, room_in, Numbers};

use scope::kinds::FrameKind;

// The most bytes of a file.
const MAX_FILE: usize = 49_152;

// The most types.
const MAX_TYPES: usize = 64;

// The most constructors.
const MAX_CONSTRUCTORS: usize = 256;

// The most constructors of one type.
const MAX_IN_TYPE: usize = 32;

// The most clauses.
const MAX_CLAUSES: usize = 64;

// The most nodes of all clauses together.
const MAX_NODES: usize = 4096;

// The first phase of a file: its types.
pub const TYPES: u8 = 0;

// The constructors of the type before them.
pub const CONSTRUCTORS: u8 = 1;

// The clauses, after the subject.
pub const CLAUSES: u8 = 2;

// The end was said.
pub const CLOSED: u8 = 3;

// The phase that the lines so far reach, and how much they say. The phase is a number: `stands` and `closes` answer for every one.
#[derive(Clone, Copy, Debug, Default, PartialEq, Eq)]
pub struct State {
    pub phase: u8,
    pub types: usize,
    pub ctors: usize,
    pub fields: usize,
    pub subject: usize,
    pub clauses: usize,
    pub used: usize,
    pub count: usize,
}

// Nothing is said yet.
pub fn start() -> State
    ensures { Numbers result 0 0 0 0 0 }
{
    State::default()
}

// 2: has a file too many bytes.
pub fn is_long(bytes: usize) -> bool
    ensures { result ≡ ltb max_file bytes }
{
    MAX_FILE < bytes
}

// 5: may a frame of this kind stand in this phase.
#[tactic(auto, unfolding(crate::specs::Phases::stands_in))]
pub fn stands(phase: u8, kind: u8) -> bool
    ensures { result ≡ stands_in phase kind }
{
    match FrameKind::try_from(kind) {
        Ok(FrameKind::TypeFrame) => phase <= CONSTRUCTORS,
        Ok(FrameKind::ConstructorFrame) => phase == CONSTRUCTORS,
        Ok(FrameKind::SubjectFrame) => phase <= CONSTRUCTORS,
        Ok(FrameKind::ClauseFrame) => phase == CLAUSES,
        Ok(FrameKind::EndFrame) => phase == CLAUSES,
        Err(_) => false,
    }
}

// 5: may a file end in this phase.
#[tactic(auto, unfolding(crate::specs::Phases::closes_in))]
pub fn closes(phase: u8) -> bool
    ensures { result ≡ closes_in phase }
{
    phase == CLOSED
}

// 6: is there room for one more constructor, of so many, where the last type has `last`.
fn has_ctor(ctors: usize, last: usize) -> bool
    ensures { result ≡ (ltb ctors max_constructors && ltb last max_in_type) }
{
    ctors < MAX_CONSTRUCTORS && last < MAX_IN_TYPE
}

// 6: is there room for one more frame of this kind, where the last type has `last` constructors.
#[tactic(auto, unfolding(crate::specs::Phases::room_in))]
pub fn has_room(s: State, last: usize, kind: u8) -> bool
    ensures { result ≡ room_in s last kind }
{
    match FrameKind::try_from(kind) {
        Ok(FrameKind::TypeFrame) => s.types < MAX_TYPES,
        Ok(FrameKind::ConstructorFrame) => has_ctor(s.ctors, last),
        Ok(FrameKind::ClauseFrame) => s.clauses < MAX_CLAUSES,
        _ => true,
    }
}

// 9: is there room for n more nodes, where the clauses so far have `count`.
pub fn has_nodes(count: usize, n: usize) -> bool
    requires { count ≤ max_nodes }
    ensures { result ≡ leb (count + n) max_nodes }
{
    n <= MAX_NODES - count
}
