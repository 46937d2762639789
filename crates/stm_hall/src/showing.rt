//! Whether the history shows an answer.
ghost use Rattle.std.specs.Prelude.{◌≡◌, ◌↔◌, IsTrue};
ghost use Rattle.std.specs.Option.{option_copied};
ghost use Rattle.stm_hall.specs.Showing.{IsShown};

use stm_history::{KeyState, ReadAnswer, are_same_states};
use stm_keys::Keys;

/// Whether a key is absent in both, or has the same state in both.
fn is_same_state(left: Option<&KeyState>, right: &Option<KeyState>) -> bool
    ensures { IsTrue result ↔ option_copied left.entry ≡ right.now }
{
    match left {
        None => right.is_none(),
        Some(state) => match right {
            None => false,
            Some(other) => are_same_states(state, other),
        },
    }
}

/// Whether an answer is true of the history, at a revision that is not 0.
pub(crate) fn is_shown(keys: &Keys, answer: &ReadAnswer) -> bool
    ensures { IsTrue result ↔ IsShown keys.now.history answer.now }
{
    if answer.of_rev == 0 || keys.revision() < answer.of_rev {
        return false;
    }
    is_same_state(
        keys.look_back(answer.key.as_str(), answer.of_rev),
        &answer.kv,
    )
}
