// The nodes from one pattern that was read up to the next one to read.
#![tactic(auto)]

ghost use Rattle.std.specs.Prelude.{List, ◌≡◌, ◌∷◌, ℕ, ◌+◌, ◌-◌, ◌*◌, ◌≤◌, ◌<◌, ◌^◌, length, set, MatchOption};
ghost use Rattle.nodes.specs.Opens.{open_at, wanted, opens};
ghost use Rattle.settle.specs.Settled.{Kept, came_to, Settled};

use cells::{get, put};
use nodes::Open;

// How far a row has come: the open patterns on the stack, three cells each, and the nodes that are put.
#[derive(Drop)]
pub struct Walk<'a> {
    pub stack: &'a mut [u16],
    pub depth: usize,
    pub nodes: &'a mut [u16],
    pub place: usize,
}

impl Walk<'_> {
    // The open pattern on top of the stack.
    fn top(&self) -> Option<Open>
        requires { 3 * self.now.depth < 2 ^ 64 }
        ensures { MatchOption result (self.now.depth ≡ 0) (λ o. (0 < self.now.depth) × (o ≡ open_at self.now.stack.now (self.now.depth - 1))) }
    {
        let below = self.depth.checked_sub(1)?;
        Some(Open::top(self.stack, below))
    }

    // The type of the next pattern of an open one: a list's tail, an element after its cell, or an argument.
    fn advance(&mut self, fields: &[u8], o: Open) -> usize
        requires below_in_bounds { 3 * self.old.depth + 3 ≤ length self.old.stack.now }
        requires at_bound { self.old.place + 1 < 2 ^ 64 }
        requires more_nonzero { 0 < wanted o.what o.more }
        ensures kept { Kept self.old self.new }
        ensures settled { (bytes : List ℕ) → Settled bytes fields.now (o ∷ opens self.old.stack.now self.old.depth) (self.old.depth + 1) self.old.place self.old.nodes.now self.new.stack.now self.new.nodes.now (came_to (Some result) self.new.depth self.new.place) }
    {
        if o.more == 0 {
            return o.list_type();
        }
        self.place = o.cell(self.nodes, self.place);
        o.take_one().push(self.stack, self.depth);
        self.depth += 1;
        usize::from(get(fields, usize::from(o.field)))
    }

    // Nodes up to the next pattern to read, and its type; none where no pattern is left.
    fn settle(&mut self, fields: &[u8]) -> Option<usize>
        requires height_in_bounds { 3 * self.old.depth ≤ length self.old.stack.now }
        requires height_bound { self.old.place + 65536 * self.old.depth + 65538 < 2 ^ 64 }
        ensures kept { Kept self.old self.new }
        ensures settled { (bytes : List ℕ) → Settled bytes fields.now (opens self.old.stack.now self.old.depth) self.old.depth self.old.place self.old.nodes.now self.new.stack.now self.new.nodes.now (came_to result self.new.depth self.new.place) }
    {
        while let Some(o) = self.top() {
            self.depth -= 1;
            if o.wants() {
                return Some(self.advance(fields, o));
            }
            self.place = o.finish(self.nodes, self.place);
        }
        None
    }

    // A node, and those after it up to the next pattern to read.
    pub fn leaf(&mut self, fields: &[u8], node: u16) -> Option<usize>
        requires depth_in_bounds { 3 * self.old.depth ≤ length self.old.stack.now }
        requires depth_bound { self.old.place + 65536 * self.old.depth + 65539 < 2 ^ 64 }
        ensures kept { Kept self.old self.new }
        ensures settled { (bytes : List ℕ) → Settled bytes fields.now (opens self.old.stack.now self.old.depth) self.old.depth (self.old.place + 1) (set self.old.nodes.now self.old.place node) self.new.stack.now self.new.nodes.now (came_to result self.new.depth self.new.place) }
    {
        self.place = put(self.nodes, self.place, node);
        self.settle(fields)
    }

    // One more open pattern, and the nodes up to the next pattern to read.
    pub fn begin(&mut self, fields: &[u8], o: Open) -> Option<usize>
        requires depth_in_bounds { 3 * self.old.depth + 3 ≤ length self.old.stack.now }
        requires depth_bound { self.old.place + 65536 * (self.old.depth + 1) + 65538 < 2 ^ 64 }
        ensures kept { Kept self.old self.new }
        ensures settled { (bytes : List ℕ) → Settled bytes fields.now (o ∷ opens self.old.stack.now self.old.depth) (self.old.depth + 1) self.old.place self.old.nodes.now self.new.stack.now self.new.nodes.now (came_to result self.new.depth self.new.place) }
    {
        o.push(self.stack, self.depth);
        self.depth += 1;
        self.settle(fields)
    }
}
