//! A word is a name or a number, or neither.
ghost use Rattle.std.specs.Prelude.{◌≡◌, ℕ, ◌≤◌, true, ◌∷◌, ℤ, Some, None, decimal, ◌≢◌, MatchOption, Decides};
ghost use Rattle.std.specs.Str.{all_ascii_digits};
ghost use Rattle.words.specs.Names.{all_name, IsName, Numeral, IsNumber};
ghost use Rattle.words.specs.Words.{Reads};

/// A word of a file: a name is a part of the file.
#[derive(Clone, Copy)]
pub enum Word<'a> {
    Name(&'a [u8]),
    Number(i32),
    Other,
}

impl<'a> Word<'a> {
    /// What the bytes of a word are.
    #[inline]
    pub fn of(bytes: &'a [u8]) -> Word<'a>
        ensures { Reads bytes.now result }
    {
        if is_name(bytes) {
            return Word::Name(bytes);
        }
        match number(bytes) {
            Some(z) => Word::Number(z),
            None => Word::Other,
        }
    }
}

// Whether each byte is a letter or a digit.
fn all_name(s: &[u8]) -> bool
    ensures { result ≡ all_name s.now }
{
    s.iter()
        .all(|b| b.is_ascii_lowercase() || b.is_ascii_digit())
}

// Whether each byte is a digit.
fn all_digits(s: &[u8]) -> bool
    ensures { result ≡ all_ascii_digits s.now }
{
    s.iter().all(|b| b.is_ascii_digit())
}

fn is_name(s: &[u8]) -> bool
    ensures { Decides result (IsName s.now) }
{
    (1..=12).contains(&s.len()) && s[0].is_ascii_lowercase() && all_name(s)
}

// Whether the bytes are a numeral of at most seven digits.
fn is_numeral(s: &[u8]) -> bool
    ensures { Decides result (Numeral s.now) }
{
    (1..=7).contains(&s.len()) && (s[0] != b'0' || s.len() == 1) && all_digits(s)
}

// The number that a numeral writes.
fn value(s: &[u8]) -> u32
    requires { Numeral s.now }
    ensures { (result ≤ 9999999) × (s.now ≡ decimal result) }
{
    let mut n = 0;
    for digit in s {
        n = n * 10 + u32::from(*digit - b'0');
    }
    n
}

// The number that the bytes write, without a sign.
fn natural(s: &[u8]) -> Option<u32>
    ensures { MatchOption result ((n : ℕ) → n ≤ 9999999 → s.now ≢ decimal n) (λ n. (n ≤ 9999999) × (s.now ≡ decimal n)) }
{
    is_numeral(s).then(|| value(s))
}

// The number that the bytes write after a `-`.
fn negative(s: &[u8]) -> Option<i32>
    ensures { MatchOption result ((z : ℤ) → IsNumber (45 ∷ s.now) z → ⊥) (λ z. IsNumber (45 ∷ s.now) z) }
{
    let n = natural(s)?;
    if n == 0 {
        return None;
    }
    Some(-(n as i32))
}

// The number that the bytes write.
fn number(s: &[u8]) -> Option<i32>
    ensures { MatchOption result ((z : ℤ) → IsNumber s.now z → ⊥) (λ z. IsNumber s.now z) }
{
    if let [b'-', digits @ ..] = s {
        return negative(digits);
    }
    Some(natural(s)? as i32)
}
