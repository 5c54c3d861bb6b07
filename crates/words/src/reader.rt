//! A reader with its place in a text: a file that it gives by lines, or a line that it gives by words.
ghost use Rattle.std.specs.Prelude.{◌≡◌, ◌+◌, ◌<◌, ◌≤◌, true, false, [], ◌∷◌, length, MatchOption, MatchBool, ◌==◌};
ghost use Rattle.words.specs.Parts.{Parted, lines_of, words_of, lines_left, words_left, past};

use crate::split::split_once;

/// A text, the place where what it has yet to give begins, and whether its last word was given.
#[derive(Drop)]
pub struct Reader<'a> {
    text: &'a [u8],
    at: usize,
    over: bool,
    ghost within: { at ≤ length text.now },
}

impl<'a> Reader<'a> {
    /// A reader at the start of a text.
    pub fn new(text: &'a [u8]) -> Reader<'a>
        ensures place { (result.text ≡ text.entry) × (result.at ≡ 0) × (result.over ≡ false) }
        ensures lines { lines_left result.text.now result.at ≡ lines_of text.now }
        ensures words { words_left result.text.now result.at result.over ≡ words_of text.now }
    {
        Reader {
            text,
            at: 0,
            over: false,
        }
    }

    /// The next line of a file, without its end.
    pub fn next_line(&mut self) -> Option<&'a [u8]>
        ensures same { (self.new.text ≡ self.old.text) × (self.new.over ≡ self.old.over) }
        ensures place { MatchOption result (self.new ≡ self.old) (λ l. self.new.at ≡ past self.old.text.now self.old.at l.now) }
        ensures gives { MatchOption result (lines_left self.old.text.now self.old.at ≡ []) (λ l. (lines_left self.old.text.now self.old.at ≡ l.now ∷ lines_left self.new.text.now self.new.at) × (self.old.at < self.new.at)) }
    {
        if self.is_spent() {
            return None;
        }
        Some(self.line())
    }

    /// The next word of a line: what stands before the next space or the line's end.
    pub fn next_word(&mut self) -> Option<&'a [u8]>
        ensures same { self.new.text ≡ self.old.text }
        ensures place { MatchOption result (self.new ≡ self.old) (λ w. (self.new.at ≡ past self.old.text.now self.old.at w.now) × (self.new.over ≡ (self.old.at + length w.now == length self.old.text.now))) }
        ensures gives { MatchOption result (words_left self.old.text.now self.old.at self.old.over ≡ []) (λ w. words_left self.old.text.now self.old.at self.old.over ≡ w.now ∷ words_left self.new.text.now self.new.at self.new.over) }
    {
        if self.over {
            return None;
        }
        Some(self.word())
    }

    // Whether no line is left.
    fn is_spent(&self) -> bool
        ensures { MatchBool result (self.now.at ≡ length self.now.text.now) (self.now.at < length self.now.text.now) }
    {
        self.at == self.text.len()
    }

    // The line at a place where one begins.
    fn line(&mut self) -> &'a [u8]
        requires { self.old.at < length self.old.text.now }
        ensures same { (self.new.text ≡ self.old.text) × (self.new.over ≡ self.old.over) }
        ensures place { self.new.at ≡ past self.old.text.now self.old.at result.now }
        ensures gives { lines_left self.old.text.now self.old.at ≡ result.now ∷ lines_left self.new.text.now self.new.at }
    {
        self.part(b'\n').0
    }

    // The word at a place where one begins.
    fn word(&mut self) -> &'a [u8]
        requires { self.old.over ≡ false }
        ensures same { self.new.text ≡ self.old.text }
        ensures place { (self.new.at ≡ past self.old.text.now self.old.at result.now) × (self.new.over ≡ (self.old.at + length result.now == length self.old.text.now)) }
        ensures gives { words_left self.old.text.now self.old.at self.old.over ≡ result.now ∷ words_left self.new.text.now self.new.at self.new.over }
    {
        let (word, last) = self.part(b' ');
        self.over = last;
        word
    }

    // What stands before the next `b`, past which the place moves; true where there is none, and it is all that is left.
    fn part(&mut self, b: u8) -> (&'a [u8], bool)
        ensures same { (self.new.text ≡ self.old.text) × (self.new.over ≡ self.old.over) }
        ensures part { Parted b self.old.text.now self.old.at result.0.now self.new.at result.1 }
    {
        let text = self.text;
        match split_once(&text[self.at..], b) {
            Some((part, rest)) => {
                self.at = text.len() - rest.len();
                (part, false)
            }
            None => {
                let part = &text[self.at..];
                self.at = text.len();
                (part, true)
            }
        }
    }
}
