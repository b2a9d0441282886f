// Total reads and writes on lent slices: what every other crate reads and writes through.
#![tactic(auto)]

ghost use Rattle.std.specs.Prelude.{◌≡◌, ◌+◌, ◌%◌, ◌<◌, ◌^◌, length, get_or, set, replicate};
ghost use Rattle.std.proofs.lemmas.List.Edits.{sets};

// A number that may stand in a cell, and its zero.
pub trait Cell: Copy {
    ghost zero: { Self };

    fn zero() -> Self
        ensures { result ≡ zero };
}

impl Cell for u8 {
    ghost zero = { 0 };

    fn zero() -> u8 {
        0
    }
}

impl Cell for u16 {
    ghost zero = { 0 };

    fn zero() -> u16 {
        0
    }
}

// The cell at i, or zero past the end.
pub fn get<T: Cell>(s: &[T], i: usize) -> T
    ensures { result ≡ get_or s.now i T.zero }
{
    if i < s.len() { s[i] } else { T::zero() }
}

// x in the cell at i, or nothing past the end; the place after it.
pub fn put<T: Copy>(s: &mut [T], i: usize, x: T) -> usize
    requires { i + 1 < 2 ^ 64 }
    ensures value { result ≡ i + 1 }
    ensures s_after { s.new ≡ set s.old i x }
{
    if i < s.len() {
        s[i] = x;
    }
    i + 1
}

// A number as 16 bits hold it.
pub fn low(n: usize) -> u16
    ensures { result ≡ n % 65536 }
{
    (n % 65536) as u16
}

// x in n cells from a place on, cut at the end; the place after them.
pub fn put_many(s: &mut [u16], from: usize, x: u16, n: usize) -> usize
    requires { from + n < 2 ^ 64 }
    ensures value { result ≡ from + n }
    ensures s_after { s.new ≡ sets s.old from (replicate n x) }
{
    for i in 0..n {
        put(s, from + i, x);
    }
    from + n
}

// How long an array is. Of one that stands in a struct a proof knows it once a step has borrowed or read the array.
pub fn size<T, const N: usize>(a: &[T; N]) -> usize
    ensures value { result ≡ N }
    ensures long { length a.now ≡ N }
{
    a.len()
}

// Zero everywhere.
pub fn clear(s: &mut [u16])
    ensures { s.new ≡ replicate (length s.old) 0 }
{
    s.fill(0);
}
