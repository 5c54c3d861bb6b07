//! The lines of a file, one after another.
ghost use Rattle.std.specs.Prelude.{◌≡◌, ◌+◌, length, drop, MatchOption, ⊤};
ghost use Rattle.std.specs.Iterator.{YieldsFirstRef, MakesProgress, item_count};
ghost use Rattle.words.specs.Parts.{lines_of};
ghost use Rattle.words.specs.Left.{left, lines_left};

use crate::reader::Reader;

/// The lines that are yet to be given, without their ends: parts of the file.
#[derive(Drop)]
pub struct Lines<'a> {
    reader: Reader<'a>,
}

impl<'a> Lines<'a> {
    /// The lines of a file.
    pub fn of(file: &'a [u8]) -> Lines<'a>
        ensures rest { (result.reader.text ≡ file.entry) × (result.reader.at ≡ 0) }
        ensures lines { lines_left result ≡ lines_of file.now }
    {
        Lines {
            reader: Reader::new(file),
        }
    }
}

impl<'a> Iterator for Lines<'a> {
    type Item = &'a [u8];

    ghost next_gives = { YieldsFirstRef lines_left };

    ghost remaining = { item_count lines_left };

    fn next(&mut self) -> Option<&'a [u8]>
        ensures steps { YieldsFirstRef lines_left self.old result self.new }
        ensures goes { MakesProgress (λ _. ⊤) (item_count lines_left) self.old result self.new }
        ensures rest { MatchOption result (self.new ≡ self.old) (λ l. left self.new.reader ≡ drop (length l.now + 1) (left self.old.reader)) }
    {
        self.reader.next_line()
    }
}
