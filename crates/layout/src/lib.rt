// How types and simplified patterns lie in slices of numbers: the definitions that the contracts of the crates above share; and names, read where they stand.
#![tactic(auto)]

ghost use Rattle.std.specs.Prelude.{◌≡◌, ◌+◌, ◌<◌, ◌≤◌, ◌^◌, length, get_or};
ghost use Rattle.layout.specs.Types.{text_at};

use cells::get;

pub mod lent;
pub mod tables;

// The place after the name whose length stands at `at`.
pub fn after_name(bytes: &[u8], at: usize) -> usize
    requires { at < 2 ^ 63 }
    ensures value { result ≡ at + 1 + get_or bytes.now at 0 }
    ensures upper_bound { result ≤ at + 256 }
{
    at + 1 + usize::from(get(bytes, at))
}

// The name whose length stands at `at`, cut at the end of the bytes.
pub fn name_at(bytes: &[u8], at: usize) -> &[u8]
    ensures result_value { result.now ≡ text_at bytes.now at }
    ensures result_len_bound { length result.now ≤ 255 }
{
    if bytes.len() <= at {
        return &bytes[..0];
    }
    let to = after_name(bytes, at);
    if bytes.len() < to {
        return &bytes[at + 1..];
    }
    &bytes[at + 1..to]
}
