//! How many lines a file has.
ghost use Rattle.std.specs.Prelude.{◌≡◌, length, MatchResult};
ghost use Rattle.words.specs.Parts.{lines_of};
ghost use Rattle.loop_file.specs.Files.{FitsFile, Refused, NoneUnfit};

use crate::parse::command_of;
use refusal::Refusal;
use words::Lines;

// How many lines a file has that fits.
pub(crate) fn count_lines(file: &[u8]) -> Result<u32, Refusal>
    ensures { MatchResult result (λ n. FitsFile file.now × NoneUnfit (lines_of file.now) × (n ≡ length (lines_of file.now))) (λ e. Refused file.now e) }
{
    if file.len() > 16384 {
        return Err(Refusal::FileTooLong);
    }
    let mut lines = 0;
    for (before, line) in Lines::of(file).enumerate() {
        lines = before as u32 + 1;
        if command_of(line).is_none() {
            return Err(Refusal::BadLine(lines));
        }
    }
    Ok(lines)
}
