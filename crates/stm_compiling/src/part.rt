//! What of a source is printed.
use stm_history::Text;

/// What of a source is printed.
#[derive(Clone, Copy, Debug, PartialEq, Eq)]
pub enum Part<'a> {
    /// Its scenario.
    Scenario,
    /// The rule of a name, which takes no words; or the program of that name, with the words that its arguments are: a text where it needs one, else a
    /// number where the word is a whole number of 64 bits by its spelling, else a text; behind `--text`, which is none itself, each is a text.
    Program { name: &'a str, words: &'a [String] },
}

/// What is printed of a source.
#[derive(Debug, Drop)]
pub struct Printed {
    /// The line of its part.
    pub line: Text,
    /// What is said beside it, of what the line has no place for.
    pub notes: Text,
}
