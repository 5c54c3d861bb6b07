//! The commands of a checked file that are yet to be given.
ghost use Rattle.std.specs.Prelude.{◌≡◌};
ghost use Rattle.words.specs.Parts.{lines_of};
ghost use Rattle.words.specs.Left.{lines_left};
ghost use Rattle.loop_file.specs.Files.{NoneUnfit};
ghost use Rattle.loop_file.specs.Lines.{Given};

use crate::command::Command;
use crate::parse::command_of;
use words::Lines;

#[derive(Drop)]
pub struct Commands<'a> {
    lines: Lines<'a>,
    ghost fit: { NoneUnfit (lines_left lines) },
}

impl<'a> Commands<'a> {
    pub(crate) fn of(file: &'a [u8]) -> Commands<'a>
        requires { NoneUnfit (lines_of file.now) }
        ensures { lines_left result.lines ≡ lines_of file.now }
    {
        Commands {
            lines: Lines::of(file),
        }
    }
}

impl<'a> Iterator for Commands<'a> {
    ghost use Rattle.std.specs.Iterator.{item_count};
    ghost use Rattle.words.specs.Left.{lines_left};
    ghost use Rattle.loop_file.specs.Lines.{Given};

    type Item = Command<'a>;

    ghost next_gives = { λ s r t. Given (lines_left s.lines) r (lines_left t.lines) };

    ghost remaining = { item_count (λ s. lines_left s.lines) };

    /// The command of the next line, which an empty line and a comment have too.
    fn next(&mut self) -> Option<Command<'a>> {
        next_of(&mut self.lines)
    }
}

// The command of the next of some lines that fit.
fn next_of<'a>(lines: &mut Lines<'a>) -> Option<Command<'a>>
    requires { NoneUnfit (lines_left lines.old) }
    ensures gives { Given (lines_left lines.old) result (lines_left lines.new) }
    ensures fit { NoneUnfit (lines_left lines.new) }
{
    command_of(lines.next()?)
}
