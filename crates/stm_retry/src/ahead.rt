//! What is known of a runner's next step.
ghost use Rattle.std.specs.Prelude.{◌≡◌, ◌≤◌, true, List, ◌∷◌};
ghost use Rattle.stm_history.specs.declared.key_state.ReadAnswer.{ReadAnswer as Answer};
ghost use Rattle.stm_world.specs.World.{Runner as LiveRunner};
ghost use Rattle.stm_retry.specs.RunnerView.{next_for};
ghost use Rattle.stm_retry.specs.AtBase.{IsAhead};

use stm_attempt::{Next, Ready};
use stm_history::ReadAnswer;
use stm_program::Level;

/// What is known of a runner's next step.
#[derive(Clone, Copy, Debug, PartialEq, Eq)]
pub(crate) enum Ahead {
    /// Nothing.
    Unknown,
    /// It fetches a key at the base of the attempt.
    FetchesAtBase,
    /// It sends the commit, which compares no key but those that were read. This is a hint.
    Commits,
}

/// Whether the first of these answers carries no later revision than the one that it shows.
fn is_own_base(reads: &[ReadAnswer]) -> bool
    ensures { result ≡ true → ((first : Answer) × (rest : List Answer) × (reads.now ≡ first ∷ rest) × (first.revision ≤ first.of_rev)) }
{
    match reads {
        [] => false,
        [first, ..] => first.revision <= first.of_rev,
    }
}

/// Whether a commit compares a key that was not read: one that it writes, at SerializableSnapshot. No contract says so.
fn compares_unread(ready: &Ready) -> bool {
    if ready.level != Level::SerializableSnapshot {
        return false;
    }
    for place in 0..ready.writes.len() {
        if !has_read(ready, ready.writes.at(place).key()) {
            return true;
        }
    }
    false
}

/// Whether an attempt has read a key. No contract says so.
fn has_read(ready: &Ready, key: &str) -> bool {
    for place in 0..ready.answers.len() {
        if ready.answers.at(place).key.as_str() == key {
            return true;
        }
    }
    false
}

/// What is known of the next step of a runner that has read these answers, by what its program comes to on them.
pub(crate) fn ahead_of(next: &Next, reads: &[ReadAnswer]) -> Ahead
    ensures { (r : LiveRunner) → next.now ≡ next_for r → reads.now ≡ r.known.reads → IsAhead result r }
{
    match next {
        Next::Fetch { at, .. } => {
            if *at != 0 && is_own_base(reads) {
                return Ahead::FetchesAtBase;
            }
            Ahead::Unknown
        }
        Next::Ready(ready) => {
            if compares_unread(ready) {
                return Ahead::Unknown;
            }
            Ahead::Commits
        }
        _ => Ahead::Unknown,
    }
}
