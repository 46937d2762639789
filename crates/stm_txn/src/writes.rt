//! Writes that are made with nothing compared.
ghost use Rattle.std.specs.Prelude.{◌≡◌};
ghost use Rattle.std.specs.List.{list_any};
ghost use Rattle.stm_history.specs.History.{key_now};
ghost use Rattle.stm_leases.specs.Live.{is_live_in};
ghost use Rattle.stm_outcome.specs.Commits.{is_on_dead_lease, effective};
ghost use Rattle.stm_outcome.specs.Effect.{changes_something};
ghost use Rattle.stm_outcome.specs.Outcome.{is_used_up};

use stm_history::Change;
use stm_keys::{HIGHEST_REVISION, Keys};
use stm_leases::Leases;

/// Whether a write puts on a lease that is not live.
fn names_dead_lease(write: &Change, leases: &Leases) -> bool
    ensures { result ≡ is_on_dead_lease (is_live_in leases.now.live) write.now }
{
    match write {
        Change::Put { lease, .. } => !(*lease == 0 || leases.is_live(*lease)),
        Change::Del { .. } => false,
    }
}

/// Whether one of these writes puts on a lease that is not live.
pub(crate) fn any_names_dead_lease(writes: &[Change], leases: &Leases) -> bool
    ensures { result ≡ list_any (is_on_dead_lease (is_live_in leases.now.live)) writes.now }
{
    writes.iter().any(|write| names_dead_lease(write, leases))
}

/// Whether a write changes something: all but a delete of a key that is absent.
fn makes_change(write: &Change, keys: &Keys) -> bool
    ensures { result ≡ changes_something (key_now keys.now.history) write.now }
{
    match write {
        Change::Put { .. } => true,
        Change::Del { key } => keys.get(key.as_str()).is_some(),
    }
}

/// The writes that change something.
pub(crate) fn only_effective(writes: Vec<Change>, keys: &Keys) -> Vec<Change>
    ensures { result.items ≡ effective keys.now.history writes.items }
{
    let mut kept = writes;
    kept.retain(|write| makes_change(write, keys));
    kept
}

/// Whether these changes are to be made at the highest revision.
pub(crate) fn are_used_up(keys: &Keys, changes: &[Change]) -> bool
    ensures { result ≡ is_used_up keys.now.history changes.now }
{
    match changes {
        [] => false,
        [_, ..] => keys.revision() == HIGHEST_REVISION,
    }
}
