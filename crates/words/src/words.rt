//! The words of a line, one after another.
ghost use Rattle.std.specs.Prelude.{◌≡◌, false, IfNone, ⊤};
ghost use Rattle.std.specs.Iterator.{YieldsFirstRef, MakesProgress, item_count};
ghost use Rattle.words.specs.Parts.{words_of};
ghost use Rattle.words.specs.Left.{words_left};

use crate::reader::Reader;

/// The words that are yet to be given, which stand between single spaces: parts of the line.
#[derive(Drop)]
pub struct Words<'a> {
    reader: Reader<'a>,
}

impl<'a> Words<'a> {
    /// The words of a line.
    pub fn of(line: &'a [u8]) -> Words<'a>
        ensures rest { (result.reader.text ≡ line.entry) × (result.reader.at ≡ 0) × (result.reader.over ≡ false) }
        ensures words { words_left result ≡ words_of line.now }
    {
        Words {
            reader: Reader::new(line),
        }
    }
}

impl<'a> Iterator for Words<'a> {
    type Item = &'a [u8];

    ghost next_gives = { YieldsFirstRef words_left };

    ghost remaining = { item_count words_left };

    fn next(&mut self) -> Option<&'a [u8]>
        ensures steps { YieldsFirstRef words_left self.old result self.new }
        ensures goes { MakesProgress (λ _. ⊤) (item_count words_left) self.old result self.new }
        ensures rest { IfNone result (self.new ≡ self.old) }
    {
        self.reader.next_word()
    }
}
