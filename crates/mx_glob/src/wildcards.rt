//! How characters of a pattern compare with those of a text.
ghost use Rattle.std.specs.Prelude.{◌≡◌};
ghost use Rattle.mx_glob.specs.Globs.{same_char};

/// How a character of a pattern, which isn't `*`, compares with one of a text.
#[derive(Clone, Copy, Debug, PartialEq, Eq)]
pub enum Same {
    /// Each with itself alone.
    Exact,
    /// ASCII letters without regard to case, and `?` with any character.
    Folded,
}

impl Same {
    /// Whether the pattern's character fits the text's.
    pub(crate) fn fits(self, pattern: char, character: char) -> bool
        ensures { result ≡ same_char self pattern character }
    {
        match self {
            Same::Exact => pattern == character,
            Same::Folded => pattern == '?' || pattern.eq_ignore_ascii_case(&character),
        }
    }
}
