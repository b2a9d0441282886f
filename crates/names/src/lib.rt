// The fixed names, and comparing bytes.
#![tactic(auto)]

ghost use Rattle.std.specs.Prelude.{◌≡◌, ◌++◌};
ghost use Rattle.scope.specs.Lists.{same};
ghost use Rattle.scope.specs.Constructors.{cons_name, nil_name, tuple_name};
ghost use Rattle.scope.specs.Text.{contains};

// "::", "[]" and "__Tuple", one after another.
const FIXED: [u8; 11] = *b"::[]__Tuple";

pub fn fixed_names() -> [u8; 11]
    ensures { result ≡ cons_name ++ nil_name ++ tuple_name }
{
    FIXED
}

// Two texts compared byte by byte.
#[tactic(auto, using(crate::proofs::Laws::pointwise_same))]
pub fn same(a: &[u8], b: &[u8]) -> bool
    ensures { result ≡ same a.now b.now }
{
    a == b
}

// Whether s stands anywhere in t.
pub fn contains(s: &[u8], t: &[u8]) -> bool
    ensures { result ≡ contains s.now t.now }
{
    s.is_empty() || t.windows(s.len()).any(|w| s == w)
}
