//! A line is read as a command.
ghost use Rattle.std.specs.Prelude.{◌≤◌, length};
ghost use Rattle.words.specs.Left.{words_left};
ghost use Rattle.loop_file.specs.declared.verb.Verb.TheVariants.{Block, Wire, Cut, Drop, Tune, Feed, Scan, Show};
ghost use Rattle.loop_file.specs.Lines.{Idle, Said, OneOrder};
ghost use Rattle.loop_file.specs.Verbs.{Parsed};

use crate::command::Command;
use crate::take::{name_word, no_more, number_among, number_word, only_name, up_to_three};
use crate::verb::Verb;
use family::Params;
use words::Words;

// The words of a `block` line after its first.
fn block<'a>(words: &mut Words<'a>) -> Option<Command<'a>>
    ensures { Parsed Block (words_left words.old) result }
{
    let name = name_word(words)?;
    let kind = name_word(words)?;
    let params = up_to_three(words)?;
    Some(Command::Block { name, kind, params })
}

// The words of a `wire` line after its first.
fn wire<'a>(words: &mut Words<'a>) -> Option<Command<'a>>
    ensures { Parsed Wire (words_left words.old) result }
{
    let target = name_word(words)?;
    let port = number_among(words, 0, 2)? as u8;
    let source = name_word(words)?;
    no_more(words)?;
    Some(Command::Wire {
        target,
        port,
        source,
    })
}

// The words of a `cut` line after its first.
fn cut<'a>(words: &mut Words<'a>) -> Option<Command<'a>>
    ensures { Parsed Cut (words_left words.old) result }
{
    let target = name_word(words)?;
    let port = number_among(words, 0, 2)? as u8;
    no_more(words)?;
    Some(Command::Cut { target, port })
}

// The words of a `tune` line after its first.
fn tune<'a>(words: &mut Words<'a>) -> Option<Command<'a>>
    ensures { Parsed Tune (words_left words.old) result }
{
    let name = name_word(words)?;
    let p = number_word(words)?;
    let q = number_word(words)?;
    let r = number_word(words)?;
    no_more(words)?;
    Some(Command::Tune {
        name,
        params: Params { p, q, r },
    })
}

// The words of a `feed` line after its first.
fn feed<'a>(words: &mut Words<'a>) -> Option<Command<'a>>
    ensures { Parsed Feed (words_left words.old) result }
{
    let name = name_word(words)?;
    let number = number_word(words)?;
    no_more(words)?;
    Some(Command::Feed { name, number })
}

// The words of a `scan` line after its first.
fn scan<'a>(words: &mut Words<'a>) -> Option<Command<'a>>
    ensures { Parsed Scan (words_left words.old) result }
{
    let times = number_among(words, 1, 1000)?;
    no_more(words)?;
    Some(Command::Scan { times })
}

// The words of a line after its first, by the verb that this spells.
fn arguments<'a>(verb: Verb, words: &mut Words<'a>) -> Option<Command<'a>>
    ensures { Parsed verb (words_left words.old) result }
{
    match verb {
        Verb::Block => block(words),
        Verb::Wire => wire(words),
        Verb::Cut => cut(words),
        Verb::Drop => Some(Command::Drop {
            name: only_name(words)?,
        }),
        Verb::Tune => tune(words),
        Verb::Feed => feed(words),
        Verb::Scan => scan(words),
        Verb::Show => Some(Command::Show {
            name: only_name(words)?,
        }),
    }
}

// The command of a line that is neither too long nor idle, by its words.
fn by_words<'a>(line: &'a [u8]) -> Option<Command<'a>>
    requires { (length line.now ≤ 80) × (Idle line.now → ⊥) }
    ensures { Said line.now result }
{
    let mut words = Words::of(line);
    let verb = Verb::of(words.next()?)?;
    arguments(verb, &mut words)
}

// No line says two orders.
fn one_order()
    ensures { OneOrder }
{}

/// The command that a line says.
pub fn command_of<'a>(line: &'a [u8]) -> Option<Command<'a>>
    ensures said { Said line.now result }
    ensures one { OneOrder }
{
    one_order();
    if line.len() > 80 {
        return None;
    }
    if matches!(line, [] | [b'#', ..]) {
        return Some(Command::Nothing);
    }
    by_words(line)
}
