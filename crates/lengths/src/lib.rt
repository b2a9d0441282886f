// How long a line and a name may be, and how many fields a constructor may have: of refusals 3 and 4.
#![tactic(auto)]

ghost use Rattle.std.specs.Prelude.{◌≡◌, ◌&&◌, ◌%◌, ltb, leb, eqb};
ghost use Rattle.scope.specs.Limits.{max_digits};
ghost use Rattle.scope.specs.Lists.{among};

// 3: may a line have n digits: not none, an even number, not over 1,280.
pub fn is_line_length(n: usize) -> bool
    ensures { result ≡ (ltb 0 n && eqb (n % 2) 0 && leb n max_digits) }
{
    0 < n && n % 2 == 0 && n <= 1280
}

// 4: may a name have n bytes.
pub fn is_name_length(n: u8) -> bool
    ensures { result ≡ among 1 32 n }
{
    matches!(n, 1..=32)
}

// 4: may a constructor have n fields, with labels (1) or without (0).
pub fn is_arity(labels: u8, n: u8) -> bool
    ensures { result ≡ among labels 16 n }
{
    (labels..=16).contains(&n)
}
