//! Where the chains of changed keys stand.
use crate::chains::{Chains, NO_HINT, hint_of};
use stm_history::Change;

/// How many changes of a revision have a hint. Most revisions have no more changes.
const HINTED: usize = 4;

/// Hints for the first changes of a revision: a key that is changed is looked for by its text once. No contract speaks of a hint: a wrong one costs a look-up by
/// text.
#[derive(Clone, Copy)]
pub(crate) struct Hints {
    places: [usize; HINTED],
}

/// Where the chain of the key of the change at an index stands, if there is such a change.
fn hint_at(chains: &Chains, changes: &[Change], index: usize) -> usize {
    if index < changes.len() {
        hint_of(chains, changes[index].key())
    } else {
        NO_HINT
    }
}

impl Hints {
    /// Where the chains of the keys of these changes stand.
    pub(crate) fn of(chains: &Chains, changes: &[Change]) -> Hints {
        Hints {
            places: [
                hint_at(chains, changes, 0),
                hint_at(chains, changes, 1),
                hint_at(chains, changes, 2),
                hint_at(chains, changes, 3),
            ],
        }
    }

    /// The hint for the change at an index.
    pub(crate) fn at(&self, index: usize) -> usize {
        if index < HINTED {
            self.places[index]
        } else {
            NO_HINT
        }
    }
}
