//! Where a run stopped, and why.
ghost use Rattle.std.specs.Prelude.{Some};
ghost use Rattle.loop_file.specs.Closing.{sentence};

use refusal::Refusal;
use std::error::Error;
use std::fmt;

/// A line was refused; line 0 where no line was at fault.
#[derive(Clone, Copy, PartialEq, Eq, Debug)]
pub struct Stop {
    pub line: u32,
    pub refusal: Refusal,
}

impl fmt::Display for Stop {
    ghost output = { λ stop. Some (sentence stop) };

    fn fmt<W: fmt::Write>(&self, f: &mut fmt::Formatter<W>) -> fmt::Result {
        let Stop { line, refusal } = *self;
        let number = refusal.number();
        write!(f, "line {line} was refused with {number}: {refusal}")
    }
}

impl Error for Stop {}
