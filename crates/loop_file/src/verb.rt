//! The first word of a command.
ghost use Rattle.std.specs.Prelude.{◌≡◌, MatchOption, ◌≢◌};
ghost use Rattle.loop_file.specs.Verbs.{spelled};

#[derive(Clone, Copy)]
pub(crate) enum Verb {
    Block,
    Wire,
    Cut,
    Drop,
    Tune,
    Feed,
    Scan,
    Show,
}

impl Verb {
    // The verb that a word spells.
    pub(crate) fn of(word: &[u8]) -> Option<Verb>
        ensures { MatchOption result ((v : Verb) → word.now ≢ spelled v) (λ v. word.now ≡ spelled v) }
    {
        match word {
            b"block" => Some(Verb::Block),
            b"wire" => Some(Verb::Wire),
            b"cut" => Some(Verb::Cut),
            b"drop" => Some(Verb::Drop),
            b"tune" => Some(Verb::Tune),
            b"feed" => Some(Verb::Feed),
            b"scan" => Some(Verb::Scan),
            b"show" => Some(Verb::Show),
            _ => None,
        }
    }
}
