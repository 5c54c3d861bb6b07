//! A file that a check has accepted.
ghost use Rattle.std.specs.Prelude.{◌≡◌, length, MatchResult};
ghost use Rattle.words.specs.Parts.{lines_of};
ghost use Rattle.words.specs.Left.{lines_left};
ghost use Rattle.loop_file.specs.Files.{FitsFile, Refused, NoneUnfit};

use crate::commands::Commands;
use crate::lines::count_lines;
use refusal::Refusal;

/// It holds only what its check accepted, and is used up by a run.
#[derive(Drop)]
pub struct CheckedFile<'a> {
    bytes: &'a [u8],
    lines: u32,
    ghost count: { lines ≡ length (lines_of bytes.now) },
    ghost fit: { NoneUnfit (lines_of bytes.now) },
}

impl<'a> CheckedFile<'a> {
    /// The file of no bytes.
    #[tactic(auto, using(crate::proofs::Turns::no_lines))]
    pub fn empty() -> CheckedFile<'a>
        ensures { (length result.bytes.now ≡ 0) × (result.lines ≡ 0) }
    {
        CheckedFile {
            bytes: &[],
            lines: 0,
        }
    }

    /// Takes a file over where it fits, and else stays as it was.
    pub fn check(&mut self, file: &'a [u8]) -> Result<(), Refusal>
        ensures { MatchResult result (λ _. FitsFile file.now × (self.new.bytes.now ≡ file.now) × (self.new.lines ≡ length (lines_of file.now))) (λ e. Refused file.now e × (self.new ≡ self.old)) }
    {
        let lines = count_lines(file)?;
        *self = CheckedFile { bytes: file, lines };
        Ok(())
    }

    /// How many lines the file has.
    pub fn lines(&self) -> u32
        ensures { result ≡ length (lines_of self.now.bytes.now) }
    {
        self.lines
    }

    /// The commands of the file, line by line.
    pub fn commands(self) -> Commands<'a>
        ensures { lines_left result.lines ≡ lines_of self.entry.bytes.now }
    {
        let CheckedFile { bytes, lines: _ } = self;
        Commands::of(bytes)
    }
}
