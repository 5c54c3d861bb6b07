//! What stands before a byte and after it.
ghost use Rattle.std.specs.Prelude.{◌≤◌, length, MatchOption};
ghost use Rattle.std.specs.List.{position_or_len};
ghost use Rattle.words.specs.Parts.{is, Halves};

// What stands before the first `b`, and what stands after it.
pub(crate) fn split_once(text: &[u8], b: u8) -> Option<(&[u8], &[u8])>
    ensures { MatchOption result (length text.now ≤ position_or_len (is b) text.now) (λ p. Halves b text.now p.0.now p.1.now) }
{
    let at = text.iter().position(|x| *x == b)?;
    Some((&text[..at], &text[at + 1..]))
}
