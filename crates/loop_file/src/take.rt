//! Takes the next word of a line, where it is what is asked for.
ghost use Rattle.std.specs.Prelude.{◌≡◌, ℕ, ◌≤◌, List, [], ◌∷◌, ℤ, decimal, ◌≢◌, MatchOption};
ghost use Rattle.std.specs.Fmt.{signed_decimal};
ghost use Rattle.words.specs.Left.{words_left};
ghost use Rattle.words.specs.Names.{IsName};
ghost use Rattle.loop_file.specs.Orders.{Number, Numbers};
ghost use Rattle.loop_file.specs.Ahead.{Took, NotTaken};

use family::Params;
use words::{Word, Words};

// The next word, where it is a name.
pub(crate) fn name_word<'a>(words: &mut Words<'a>) -> Option<&'a [u8]>
    ensures { MatchOption result ((w : List ℕ) (ws : List (List ℕ)) → words_left words.old ≡ w ∷ ws → IsName w → ⊥) (λ n. (words_left words.old ≡ n.now ∷ words_left words.new) × IsName n.now) }
{
    match Word::of(words.next()?) {
        Word::Name(name) => Some(name),
        _ => None,
    }
}

// The next word, where it is a name and the last word.
pub(crate) fn only_name<'a>(words: &mut Words<'a>) -> Option<&'a [u8]>
    ensures { MatchOption result ((w : List ℕ) → words_left words.old ≡ w ∷ [] → IsName w → ⊥) (λ n. (words_left words.old ≡ n.now ∷ []) × IsName n.now) }
{
    let name = name_word(words)?;
    no_more(words)?;
    Some(name)
}

// The number of a word.
fn number_of(word: &[u8]) -> Option<i32>
    ensures { MatchOption result ((z : ℤ) → word.now ≡ signed_decimal z → Number z → ⊥) (λ z. (word.now ≡ signed_decimal z) × Number z) }
{
    match Word::of(word) {
        Word::Number(z) => Some(z),
        _ => None,
    }
}

// The number of the next word.
pub(crate) fn number_word(words: &mut Words) -> Option<i32>
    ensures { MatchOption result ((z : ℤ) (ws : List (List ℕ)) → words_left words.old ≡ signed_decimal z ∷ ws → Number z → ⊥) (λ z. (words_left words.old ≡ signed_decimal z ∷ words_left words.new) × Number z) }
{
    number_of(words.next()?)
}

// The number of the next word, where it is from low to high.
pub(crate) fn number_among(words: &mut Words, low: u32, high: u32) -> Option<u32>
    requires { high ≤ 9999999 }
    ensures { MatchOption result ((n : ℕ) (ws : List (List ℕ)) → words_left words.old ≡ decimal n ∷ ws → low ≤ n → n ≤ high → ⊥) (λ n. (words_left words.old ≡ decimal n ∷ words_left words.new) × (low ≤ n) × (n ≤ high)) }
{
    let n = u32::try_from(number_word(words)?).ok()?;
    if n < low || n > high {
        return None;
    }
    Some(n)
}

// The number of the next word, or 0 where no word is left.
fn number_or_zero(words: &mut Words) -> Option<i32>
    ensures { MatchOption result (NotTaken (words_left words.old)) (λ z. Took (words_left words.old) z (words_left words.new)) }
{
    words.next().map_or(Some(0), number_of)
}

// The numbers of all words that are left, which are at most three; a missing one is 0.
pub(crate) fn up_to_three(words: &mut Words) -> Option<Params>
    ensures { MatchOption result ((p q r : ℤ) → Numbers (words_left words.old) p q r → Number p → Number q → Number r → ⊥) (λ t. Numbers (words_left words.old) t.p t.q t.r × Number t.p × Number t.q × Number t.r) }
{
    let p = number_or_zero(words)?;
    let q = number_or_zero(words)?;
    let r = number_or_zero(words)?;
    no_more(words)?;
    Some(Params { p, q, r })
}

// Nothing, where no word is left.
pub(crate) fn no_more(words: &mut Words) -> Option<()>
    ensures { MatchOption result (words_left words.old ≢ []) (λ _. words_left words.old ≡ []) }
{
    words.next().is_none().then_some(())
}
