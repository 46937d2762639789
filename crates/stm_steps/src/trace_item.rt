//! What a run saw.
ghost use Rattle.std.specs.Prelude.{◌≡◌, ◌↔◌, IsTrue};

use stm_history::Text;

/// One `get` or `rev` of a run, with what it gave.
#[derive(Clone, Debug, PartialEq, Eq, Drop)]
pub enum TraceItem {
    /// A `get` of a key gave this value, the empty text where the key was absent.
    Get {
        /// The key.
        key: Text,
        /// What it gave.
        value: Text,
    },
    /// A `rev` of a key gave this modification revision, 0 where the key was absent.
    Rev {
        /// The key.
        key: Text,
        /// What it gave.
        mod_rev: u64,
    },
}

/// Whether two traces are the same.
pub fn are_same_traces(left: &[TraceItem], right: &[TraceItem]) -> bool
    ensures { IsTrue result ↔ left.now ≡ right.now }
{
    left == right
}
