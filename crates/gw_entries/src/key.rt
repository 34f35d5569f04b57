//! What may stand at a key of a table, and what is meant where it's left out.

/// What may stand at a key.
#[derive(Clone, Copy)]
pub enum KeyContent {
    /// A whole number, from the first to the second.
    Number(i64, i64),
    /// A whole number from the first on, to the value of another key of the table.
    NumberTo(i64, &'static str),
    /// A whole number from the first on, below the value of another key of the table.
    NumberBelow(i64, &'static str),
    /// The position of an outstation, from 0.
    Outstation,
    /// One of these texts.
    Word(&'static [&'static str]),
    /// Any text.
    Text,
    /// A text that is a rule of POSIX's TZ variable (IEEE Std 1003.1), with the days on which summer time begins and
    /// ends, if it has one.
    PosixRule,
    /// True or false.
    Flag,
}

const NO_WORDS: [&str; 0] = [];

impl KeyContent {
    ghost use Rattle.std.specs.Prelude.{◌≡◌, map};
    ghost use Rattle.gw_entries.specs.Keys.{content_seen, words_of};

    /// The words that may stand there.
    pub fn words(self) -> &'static [&'static str]
        ensures { map (λ word. word.now) result.now ≡ words_of (content_seen self) }
    {
        match self {
            KeyContent::Word(words) => words,
            _ => &NO_WORDS,
        }
    }
}

/// What a key means that is left out.
#[derive(Clone, Copy)]
pub enum Absence {
    /// Nothing: it is needed.
    Required,
    Number(i64),
    Text(&'static str),
    No,
    /// The type by which points of the kind are usually shown.
    UsualType,
    /// What the station has at the key.
    OfStation,
    /// No rule: civil time has no summer time.
    NoRule,
}

/// A key of a table.
#[derive(Clone, Copy)]
pub struct Key {
    pub name: &'static str,
    pub content: KeyContent,
    pub absence: Absence,
}
