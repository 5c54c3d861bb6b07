//! Tests that the families share.
ghost use Rattle.std.specs.Prelude.{◌≡◌};
ghost use Rattle.std.specs.Str.{bytes_eq};
ghost use Rattle.family.specs.Params.{within, among, first_bad, bad_but};

use crate::values::Params;

/// -n ≤ z ≤ n.
pub fn is_within(z: i32, n: u32) -> bool
    ensures { result ≡ within z n }
{
    z.unsigned_abs() <= n
}

/// low ≤ z ≤ high.
pub fn is_among(low: i32, z: i32, high: i32) -> bool
    ensures { result ≡ among low z high }
{
    (low..=high).contains(&z)
}

/// The number of the first of three parameters whose test failed.
pub fn first_bad(p: bool, q: bool, r: bool) -> Option<u8>
    ensures { result ≡ first_bad p q r }
{
    match (p, q, r) {
        (false, _, _) => Some(0),
        (true, false, _) => Some(1),
        (true, true, false) => Some(2),
        (true, true, true) => None,
    }
}

/// The first bad parameter, where p passed its test or not, and q and r have to be 0.
pub fn bad_but(p: bool, params: Params) -> Option<u8>
    ensures { result ≡ bad_but p params }
{
    first_bad(p, is_within(params.q, 0), is_within(params.r, 0))
}

/// Whether the text is the word.
pub fn is_word(text: &[u8], word: &[u8]) -> bool
    ensures { result ≡ bytes_eq text.now word.now }
{
    text == word
}
