//! The words for what came of a case.

ghost use Rattle.std.specs.Prelude.{◌≡◌, option_map};
ghost use Rattle.results.specs.Words.{level_named, level_word, suite_word, verdict_word};

/// The command that runs a case.
#[derive(Clone, Copy, Debug, PartialEq, Eq)]
pub enum Suite {
    Case,
    Wire,
    Misbehave,
    /// The command `self`.
    SelfTest,
    Drain,
}

/// What became of a case.
#[derive(Clone, Copy, Debug, PartialEq, Eq)]
pub enum Verdict {
    Ok,
    Failed,
    /// Some tries passed, and others didn't. It accuses nobody.
    Unsteady,
    /// The peer didn't do what the case needs, so nothing was seen that could be right or wrong.
    NotTested,
    /// The peer isn't one that the case is for.
    NotApplicable,
}

/// How binding the rule is that a case rests on.
#[derive(Clone, Copy, Debug, PartialEq, Eq)]
pub enum Level {
    /// A standard says MUST.
    Must,
    /// A standard says SHOULD.
    Should,
    /// This project's own choice among what the standards allow.
    Ours,
}

impl Suite {
    /// Its word, which is the command's.
    pub fn name(self) -> &'static str
        ensures { result.now ≡ suite_word self }
    {
        match self {
            Suite::Case => "case",
            Suite::Wire => "wire",
            Suite::Misbehave => "misbehave",
            Suite::SelfTest => "self",
            Suite::Drain => "drain",
        }
    }
}

impl Verdict {
    /// Its word.
    pub fn name(self) -> &'static str
        ensures { result.now ≡ verdict_word self }
    {
        match self {
            Verdict::Ok => "ok",
            Verdict::Failed => "failed",
            Verdict::Unsteady => "unsteady",
            Verdict::NotTested => "not tested",
            Verdict::NotApplicable => "not applicable",
        }
    }
}

impl Level {
    /// Its word.
    pub fn name(self) -> &'static str
        ensures { result.now ≡ level_word self }
    {
        match self {
            Level::Must => "must",
            Level::Should => "should",
            Level::Ours => "ours",
        }
    }

    /// The level of a word.
    pub fn named(word: &str) -> Option<Level>
        ensures { result ≡ level_named word.now }
    {
        match word {
            "must" => Some(Level::Must),
            "should" => Some(Level::Should),
            "ours" => Some(Level::Ours),
            _ => None,
        }
    }
}

/// The word of a level, if there is one.
pub(crate) fn level_word(level: Option<Level>) -> Option<&'static str>
    ensures { option_map (λ word. word.now) result ≡ option_map level_word level }
{
    match level {
        Some(level) => Some(level.name()),
        None => None,
    }
}
