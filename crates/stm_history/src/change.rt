//! The changes that a revision is made of.
ghost use Rattle.std.specs.Prelude.{◌≡◌, option_copied};
ghost use Rattle.stm_history.specs.History.{key_of, value_written, change_of};

use crate::text::Text;
use std::alloc::AllocError;

/// One change of one key: what a revision is made of, and what a program's write asks for.
#[derive(Debug, Drop, PartialEq, Eq)]
pub enum Change {
    /// The key gets this value, and is attached to this lease (0 for none).
    Put {
        /// The key.
        key: Text,
        /// The value.
        value: Text,
        /// The lease's id, 0 for none.
        lease: u64,
    },
    /// The key is deleted: a deletion of an absent key changes nothing.
    Del {
        /// The key.
        key: Text,
    },
}

impl Change {
    /// The key that the change is about.
    pub fn key(&self) -> &str
        ensures { result.now ≡ key_of self.now }
    {
        match self {
            Change::Put { key, .. } => key.as_str(),
            Change::Del { key } => key.as_str(),
        }
    }

    /// What a read sees of the change: the value that is put, the empty text of a deletion.
    pub fn value(&self) -> &str
        ensures { result.now ≡ value_written self.now }
    {
        match self {
            Change::Put { value, .. } => value.as_str(),
            Change::Del { .. } => "",
        }
    }
}

impl Clone for Change {
    ghost use Rattle.std.specs.Prelude.{◌≡◌};

    ghost is_clone = { λ change copy. copy ≡ change };

    fn clone(&self) -> Result<Change, AllocError> {
        match self {
            Change::Put { key, value, lease } => {
                let key = key.clone()?;
                let value = value.clone()?;
                Ok(Change::Put {
                    key,
                    value,
                    lease: *lease,
                })
            }
            Change::Del { key } => {
                let key = key.clone()?;
                Ok(Change::Del { key })
            }
        }
    }
}

/// The change of a key among the changes of one revision, if there is one.
pub fn find_change<'a>(changes: &'a [Change], key: &str) -> Option<&'a Change>
    ensures { option_copied result ≡ change_of key.now changes.now }
{
    for change in changes {
        if change.key() == key {
            return Some(change);
        }
    }
    None
}
