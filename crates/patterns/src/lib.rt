// `simplify` into the prefix-order table: refusal 8.
#![tactic(auto)]

ghost use Rattle.std.specs.Prelude.{◌≡◌, ◌+◌, ◌*◌, ◌≤◌, ◌<◌, ◌^◌, length};
ghost use Rattle.suits.specs.Raws.{size_of, size_at};
ghost use Rattle.settle.specs.Settled.{Kept};
ghost use Rattle.patterns.specs.Rows.{Ready, turned_to, Turned, Reading, Simplifies};

use cells::{get, put};
use layout::lent::Types;
use nodes::{Open, count_left, key};
use scope::kinds::PatternKind;
use settle::Walk;
use suits::{Suit, Unsuited, suits};

// How many bytes a pattern has without its inner ones, where its name or text has l.
fn size(what: u8, l: usize) -> usize
    requires { l < 256 }
    ensures { (result ≡ size_of what l) × (result < 512) }
{
    match PatternKind::try_from(what) {
        Ok(PatternKind::Discard) => 1,
        Ok(PatternKind::Variable) => 2 + l,
        Ok(PatternKind::Assign) => 2 + l,
        Ok(PatternKind::Integer) => 2 + l,
        Ok(PatternKind::ByteString) => 2 + l,
        Ok(PatternKind::List) => 3,
        Ok(PatternKind::Constructor) => 4,
        Ok(PatternKind::Pair) => 1,
        Ok(PatternKind::Tuple) => 2,
        Err(_) => 2,
    }
}

// Where the next pattern stands.
fn after(bytes: &[u8], at: usize) -> usize
    requires { at < 65536 }
    ensures { result ≡ at + size_at bytes.now at }
{
    at + size(get(bytes, at), usize::from(get(bytes, at + 1)))
}

// The pattern at `at`, read at type t, and the nodes up to the next one: its type, or none where no pattern is left.
fn turn(
    types: &Types<'_>,
    at: usize,
    t: usize,
    walk: &mut Walk<'_>,
) -> Result<Option<usize>, Unsuited>
    requires at_bound { (at < 32768) × (t < 16384) }
    requires depth_in_bounds { 3 * walk.old.depth + 3 ≤ length walk.old.stack.now }
    requires depth_bound { walk.old.place + 65536 * (walk.old.depth + 1) + 65539 < 2 ^ 64 }
    requires fields_len_bound { length types.now.fields.now ≤ 65536 }
    ensures kept { Kept walk.old walk.new }
    ensures turned { Turned types.now.bytes.now types.now.kinds.now types.now.counts.now types.now.arities.now types.now.starts.now types.now.fields.now at t walk.old.depth walk.old.place walk.old.stack.now walk.old.nodes.now walk.new.stack.now walk.new.nodes.now (turned_to result walk.new.depth walk.new.place) }
{
    match suits(types, at, t)? {
        Suit::Again => Ok(Some(t)),
        Suit::Leaf { node } => Ok(walk.leaf(types.fields, node)),
        Suit::Cells { more, tail } => {
            let o = Open::list(types.starts, t, more, tail);
            Ok(walk.begin(types.fields, o))
        }
        Suit::Args { c, more, wilds } => {
            let o = Open::ctor(types.starts, t, c, more, wilds);
            walk.place = put(walk.nodes, walk.place, key(t, c));
            Ok(walk.begin(types.fields, o))
        }
    }
}

// The nodes of the pattern at `from`, read at the subject's type, put from `used` on, and how many they are, also where
// there is no room for them.
fn row(
    types: &Types<'_>,
    from: usize,
    subject: usize,
    stack: &mut [u16],
    nodes: &mut [u16],
    used: usize,
) -> Result<usize, Unsuited>
    requires { Ready types.now.bytes.now from subject types.now.fields.now stack.old nodes.old used }
    ensures { Reading types.now.bytes.now from types.now.kinds.now types.now.counts.now types.now.arities.now types.now.starts.now types.now.fields.now subject used nodes.old nodes.new result }
{
    let mut walk = Walk {
        stack,
        depth: 0,
        nodes,
        place: used,
    };
    let mut at = from;
    let mut t = subject;
    while let Some(next) = turn(types, at, t, &mut walk)? {
        at = after(types.bytes, at);
        t = next;
    }
    Ok(walk.place - used)
}

// The pattern at `from`, read at the subject's type, as a row of nodes from `used` on, with `left` beside it; where it
// has more nodes than there is room for, they are counted.
pub fn simplify(
    types: &Types<'_>,
    from: usize,
    subject: usize,
    stack: &mut [u16],
    nodes: &mut [u16],
    left: &mut [u16],
    used: usize,
) -> Result<usize, Unsuited>
    requires { Ready types.now.bytes.now from subject types.now.fields.now stack.old nodes.old used }
    ensures { Simplifies types.now.bytes.now from types.now.kinds.now types.now.counts.now types.now.arities.now types.now.starts.now types.now.fields.now subject used nodes.old left.old nodes.new left.new result }
{
    let count = row(types, from, subject, stack, nodes, used)?;
    if count <= nodes.len() - used {
        count_left(types.arities, nodes, left, used, count);
    }
    Ok(count)
}
