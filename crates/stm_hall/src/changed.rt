//! Whether a key was changed above a revision.
ghost use Rattle.std.specs.Prelude.{◌≡◌, nat_lt};
ghost use Rattle.std.specs.Option.{option_copied};
ghost use Rattle.stm_history.specs.History.{mod_of};
ghost use Rattle.stm_compile.specs.Conflicts.{changes_above};

use stm_history::KeyState;
use stm_keys::Keys;

/// Whether a key in this state was modified above a revision.
fn is_modified_above(state: Option<&KeyState>, since: u64) -> bool
    ensures { result ≡ nat_lt since (mod_of (option_copied state.entry)) }
{
    match state {
        None => false,
        Some(state) => since < state.mod_rev,
    }
}

/// Whether the history changes a key above a revision. For the revisions that were dropped, the key's state at the opening shows it.
pub(crate) fn is_changed_above(keys: &Keys, key: &str, since: u64) -> bool
    ensures { result ≡ changes_above keys.now.history.opening since key.now keys.now.history.revisions }
{
    if is_modified_above(keys.look_back(key, keys.below()), since) {
        return true;
    }
    keys.next_change(key, since).is_some()
}
