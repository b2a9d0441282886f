// The arrays in which a block is made, and the slices that its readers take of them.

ghost use Rattle.std.specs.Prelude.{◌≡◌};
ghost use Rattle.layout.specs.Stores.{BlankStore};

use crate::lent::{Block, Types};

// The type table as it is made: 64 types, 32 constructors for each, and their fields one after another.
#[derive(Drop)]
pub struct Tables {
    pub kinds: [u8; 64],
    pub counts: [u8; 64],
    pub arities: [u8; 2048],
    pub starts: [u16; 2048],
    pub names: [u16; 2048],
    pub fields: [u8; 5120],
    pub labels: [u16; 5120],
}

impl Tables {
    // The table as slices, with the bytes that it points into.
    pub fn lend<'a>(&'a self, bytes: &'a [u8]) -> Types<'a>
        ensures bytes { result.bytes.now ≡ bytes.now }
        ensures kinds { result.kinds.now ≡ self.now.kinds }
        ensures counts { result.counts.now ≡ self.now.counts }
        ensures arities { result.arities.now ≡ self.now.arities }
        ensures starts { result.starts.now ≡ self.now.starts }
        ensures names { result.names.now ≡ self.now.names }
        ensures fields { result.fields.now ≡ self.now.fields }
        ensures labels { result.labels.now ≡ self.now.labels }
    {
        Types {
            bytes,
            kinds: &self.kinds,
            counts: &self.counts,
            arities: &self.arities,
            starts: &self.starts,
            names: &self.names,
            fields: &self.fields,
            labels: &self.labels,
        }
    }
}

// The simplified patterns as they are made: all nodes, `left` beside them, and where the row of each clause begins.
#[derive(Drop)]
pub struct Rows {
    pub nodes: [u16; 4160],
    pub left: [u16; 4160],
    pub starts: [u16; 64],
}

impl Rows {
    // The rows as slices, with the types that they are of.
    pub fn lend<'a>(&'a self, types: Types<'a>) -> Block<'a>
        ensures types { result.types ≡ types.entry }
        ensures nodes { result.nodes.now ≡ self.now.nodes }
        ensures left { result.left.now ≡ self.now.left }
    {
        Block {
            types,
            nodes: &self.nodes,
            left: &self.left,
        }
    }
}

// All that is made of a file: its decoded bytes, the type table that points into them, and the rows of its clauses.
#[derive(Drop)]
pub struct Store {
    pub bytes: [u8; 24576],
    pub tables: Tables,
    pub rows: Rows,
}

impl Store {
    // Zero everywhere.
    pub fn new() -> Store
        ensures { BlankStore result }
    {
        Store {
            bytes: [0; 24576],
            tables: Tables {
                kinds: [0; 64],
                counts: [0; 64],
                arities: [0; 2048],
                starts: [0; 2048],
                names: [0; 2048],
                fields: [0; 5120],
                labels: [0; 5120],
            },
            rows: Rows {
                nodes: [0; 4160],
                left: [0; 4160],
                starts: [0; 64],
            },
        }
    }

    // Zero again.
    pub fn clear(&mut self)
        ensures { BlankStore self.new }
    {
        self.bytes = [0; 24576];
        self.tables.kinds = [0; 64];
        self.tables.counts = [0; 64];
        self.tables.arities = [0; 2048];
        self.tables.starts = [0; 2048];
        self.tables.names = [0; 2048];
        self.tables.fields = [0; 5120];
        self.tables.labels = [0; 5120];
        self.rows.nodes = [0; 4160];
        self.rows.left = [0; 4160];
        self.rows.starts = [0; 64];
    }
}
