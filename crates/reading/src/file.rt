// A file: 2, then its lines, one step each.

ghost use Rattle.std.specs.Prelude.{◌≡◌, replicate};
ghost use Rattle.reading.specs.Said.{held_by, Sized};
ghost use Rattle.reading.specs.Files.{end_of, LinesAs, said_parsed, ReadAs};

use crate::line::enter_line;
use cells::size;
use hexadecimal::read_line;
use layout::tables::Store;
use order::{State, closes, is_long, start};
use scope::refusal::Refusal;

// What the numbers of a whole file say: the subject's type, how many clauses and how many types there are.
#[derive(Clone, Copy, Debug, PartialEq, Eq)]
pub struct Parsed {
    pub subject: usize,
    pub clauses: usize,
    pub types: usize,
}

// Why a file is refused, and at which line; 0 where no line is at fault.
#[derive(Clone, Copy, Debug, PartialEq, Eq)]
pub struct Faulty {
    pub why: Refusal,
    pub line: usize,
}

// After the last line: the block, or 5 at the line after it.
fn ended(s: State, k: usize) -> Result<Parsed, Faulty>
    ensures { result ≡ end_of s k }
{
    if !closes(s.phase) {
        return Err(Faulty {
            why: Refusal::Order,
            line: k,
        });
    }
    Ok(Parsed {
        subject: s.subject,
        clauses: s.clauses,
        types: s.types,
    })
}

// The block that a file says, in the store, or the refusal and its line: 2, then line by line.
fn read_lines(file: &[u8], store: &mut Store) -> Result<Parsed, Faulty>
    requires sized { Sized (held_by store.old) }
    requires labels_value { store.old.tables.labels ≡ replicate 5120 0 }
    ensures { LinesAs file.now (held_by store.new) result }
{
    if is_long(file.len()) {
        return Err(Faulty {
            why: Refusal::File,
            line: 0,
        });
    }
    let mut s = start();
    let mut k = 1;
    let mut i = 0;
    let mut at = 0;
    while i < file.len() {
        let l = read_line(file, i, &mut store.bytes, at);
        let Ok(line) = l else {
            return Err(Faulty {
                why: Refusal::Line,
                line: k,
            });
        };
        let r = enter_line(
            &store.bytes[..line.to],
            at,
            s,
            &mut store.tables,
            &mut store.rows,
        );
        match r {
            Err(why) => {
                return Err(Faulty { why, line: k });
            }
            Ok(t) => {
                s = t;
                i = line.next;
                at = line.to;
                k += 1;
            }
        }
    }
    ended(s, k)
}

// The arrays of a store have their sizes: nothing to do.
fn sized(store: &Store)
    ensures { Sized (held_by store.now) }
{
    size(&store.tables.kinds);
    size(&store.tables.counts);
    size(&store.tables.arities);
    size(&store.tables.starts);
    size(&store.tables.names);
    size(&store.tables.fields);
    size(&store.tables.labels);
    size(&store.rows.nodes);
    size(&store.rows.left);
    size(&store.rows.starts);
}

// The block that a file says, in the store, or the refusal and its line, and the store zero.
pub fn read(file: &[u8], store: &mut Store) -> Result<Parsed, Faulty>
    ensures { ReadAs file.now (held_by store.new) (said_parsed result) }
{
    sized(store);
    store.tables.labels = [0; 5120];
    let r = read_lines(file, store);
    if r.is_err() {
        store.clear();
    }
    r
}
