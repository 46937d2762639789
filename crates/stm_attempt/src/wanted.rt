//! What a program waits for.
ghost use Rattle.std.specs.Prelude.{◌≡◌};
ghost use Rattle.stm_attempt.specs.Wanted.{next_wanted};

use crate::next::Next;
use stm_history::{Sequence, Text};

/// What is to be fetched before a program goes on.
#[derive(Drop)]
pub(crate) enum Wanted {
    /// All keys of its list, as they are now.
    List(Sequence<Text>),
    /// This key at this revision, 0 for the current one.
    Key(Text, u64),
}

impl Wanted {
    /// What the attempt answers.
    pub(crate) fn into_next(self) -> Next
        ensures { result ≡ next_wanted self }
    {
        match self {
            Wanted::List(keys) => Next::FetchAll { keys, at: 0 },
            Wanted::Key(key, at) => Next::Fetch { key, at },
        }
    }
}
