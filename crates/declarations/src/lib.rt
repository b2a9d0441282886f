// What a type's frame and a constructor's hold.
#![tactic(auto)]

ghost use Rattle.std.specs.Prelude.{◌≡◌, ◌≤◌, length};
ghost use Rattle.scope.specs.Frames.{times, type_frame, constructor_frame};
ghost use Rattle.fields.specs.Places.{said_read, said_at, read_at};
ghost use Rattle.declarations.specs.Pieces.{counted_bytes, field, fields_with, fields};

use cells::get;
use fields::{Fault, byte, name, skip, within};
use lengths::is_arity;
use scope::kinds::TypeKind;

// A count from 2 to 16, then so many bytes: a tuple's types.
fn tuple_type(bytes: &[u8], at: usize) -> Result<usize, Fault>
    requires { at ≤ length bytes.now }
    ensures { result ≡ read_at bytes.now at counted_bytes }
{
    let n = get(bytes, at);
    if !(2..=16).contains(&n) {
        return Err(Fault { at });
    }
    skip(bytes, at + 1, usize::from(n))
}

// 01 type.
pub fn type_frame(bytes: &[u8], at: usize) -> Result<usize, Fault>
    requires { at ≤ length bytes.now }
    ensures { said_read result ≡ said_at bytes.now at type_frame }
{
    if bytes.len() <= at {
        return Err(Fault { at });
    }
    let from = at + 1;
    match TypeKind::try_from(bytes[at]) {
        Ok(TypeKind::Integer) => Ok(from),
        Ok(TypeKind::ByteString) => Ok(from),
        Ok(TypeKind::Opaque) => Ok(from),
        Ok(TypeKind::List) => byte(bytes, from),
        Ok(TypeKind::Tuple) => tuple_type(bytes, from),
        Ok(TypeKind::Pair) => skip(bytes, from, 2),
        Ok(TypeKind::Data) => Ok(from),
        Err(_) => Err(Fault { at }),
    }
}

// A field with a label: its type, then the label.
fn field(bytes: &[u8], at: usize) -> Result<usize, Fault>
    requires { at ≤ length bytes.now }
    ensures { result ≡ read_at bytes.now at field }
{
    let from = byte(bytes, at)?;
    name(bytes, from, false)
}

// n fields with labels.
fn labelled(bytes: &[u8], at: usize, n: usize) -> Result<usize, Fault>
    requires { at ≤ length bytes.now }
    ensures { result ≡ read_at bytes.now at (times n field) }
{
    let mut p = at;
    for _ in 0..n {
        p = field(bytes, p)?;
    }
    Ok(p)
}

// Arity and fields, with labels or without.
fn counted(bytes: &[u8], at: usize, labels: bool) -> Result<usize, Fault>
    requires { at ≤ length bytes.now }
    ensures { result ≡ read_at bytes.now at (fields_with labels) }
{
    let n = get(bytes, at);
    if !is_arity(u8::from(labels), n) {
        return Err(Fault { at });
    }
    if labels {
        labelled(bytes, at + 1, usize::from(n))
    } else {
        skip(bytes, at, usize::from(n) + 1)
    }
}

// Labels or not, arity, fields.
fn fields(bytes: &[u8], at: usize) -> Result<usize, Fault>
    requires { at ≤ length bytes.now }
    ensures { result ≡ read_at bytes.now at fields }
{
    let from = within(bytes, at, 0, 1)?;
    counted(bytes, from, bytes[at] == 1)
}

// 02 constructor.
pub fn constructor_frame(bytes: &[u8], at: usize) -> Result<usize, Fault>
    requires { at ≤ length bytes.now }
    ensures { said_read result ≡ said_at bytes.now at constructor_frame }
{
    let from = name(bytes, at, true)?;
    fields(bytes, from)
}
