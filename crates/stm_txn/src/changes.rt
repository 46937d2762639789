//! The changes of one revision.
ghost use Rattle.std.specs.Prelude.{◌≡◌, ◌↔◌, Err, OnOk, OnErr};
ghost use Rattle.stm_history.specs.declared.revisions.TheConstants.{HIGHEST_REVISION};
ghost use Rattle.stm_history.specs.History.{now, add_revision, IsRevision};
ghost use Rattle.stm_keys.specs.Keys.{DeletePresent};
ghost use Rattle.stm_txn.specs.ChangesHeld.{changes_held};

use std::slice;
use stm_history::Change;
use stm_keys::{ApplyRefusal, Keys};

/// Where the changes of a revision stand. Many revisions have one.
#[derive(Drop)]
pub(crate) enum Changes {
    /// In the value itself.
    One(Change),
    /// In memory of their own.
    More(Vec<Change>),
}

impl Changes {
    /// The changes in order.
    pub(crate) fn as_slice(&self) -> &[Change]
        ensures { result.now ≡ changes_held self.now }
    {
        match self {
            Changes::One(change) => slice::from_ref(change),
            Changes::More(changes) => changes.as_slice(),
        }
    }

    /// Adds them to the keys as one revision.
    #[inline(always)]
    pub(crate) fn apply(self, keys: &mut Keys) -> Result<u64, ApplyRefusal>
        requires revision { IsRevision (changes_held self) }
        requires present { DeletePresent keys.old.history (changes_held self) }
        ensures ok { OnOk result (keys.new.history ≡ add_revision keys.old.history (changes_held self)) }
        ensures kept { (keys.new.opened ≡ keys.old.opened) × (keys.new.floor ≡ keys.old.floor) }
        ensures used_up { (result ≡ Err ApplyRefusal.RevisionsUsedUp) ↔ (now keys.old.history ≡ HIGHEST_REVISION) }
        ensures err { OnErr result (keys.new ≡ keys.old) }
    {
        match self {
            Changes::One(change) => keys.apply_one(change),
            Changes::More(changes) => keys.apply_all(changes),
        }
    }
}
