//! What the store of a world opened with.
ghost use Rattle.std.specs.Prelude.{◌≡◌, ◌∷◌, [], true, IfOk};
ghost use Rattle.stm_history.specs.Opening.{States, opening_at};

use std::alloc::{AllocError, Global};
use std::marker::Model;
use std::sync::Arc;
use stm_history::{KeyState, Sequence, Text, are_same_states};

/// The revision at which a store opened, and what each key was there: none in a store that opened empty.
#[derive(Drop)]
pub(crate) struct Opened {
    number: u64,
    states: Option<Arc<Sequence<(Text, KeyState)>>>,
}

impl Model for Opened {
    ghost use Rattle.stm_history.specs.Opening.{Opening};
    ghost use Rattle.stm_retry.specs.Opened.{states_held};

    ghost Value = { Opening };

    ghost view = { λ o. record { number = o.number; states = states_held (λ a. a.value) o.states } };
}

impl Opened {
    /// An empty store at a revision.
    pub(crate) fn empty(number: u64) -> Opened
        ensures { result ≡ opening_at number }
    {
        Opened {
            number,
            states: None,
        }
    }

    /// A store with these states at a revision.
    pub(crate) fn with_states(
        alloc: Global,
        number: u64,
        states: Sequence<(Text, KeyState)>,
    ) -> Result<Opened, AllocError>
        ensures { IfOk result (λ o. o ≡ record { number = number; states = states }) }
    {
        let states = Arc::new(alloc, states)?;
        Ok(Opened {
            number,
            states: Some(states),
        })
    }

    /// The same once more, which shares the states.
    pub(crate) fn share(&self) -> Result<Opened, AllocError>
        ensures { IfOk result (λ o. o ≡ self.now) }
    {
        let states = match &self.states {
            None => None,
            Some(states) => Some(states.clone()?),
        };
        Ok(Opened {
            number: self.number,
            states,
        })
    }

    /// Whether both are the same. `false` says nothing.
    pub(crate) fn is_same(&self, other: &Opened) -> bool
        ensures { result ≡ true → self.now ≡ other.now }
    {
        if self.number != other.number {
            return false;
        }
        match &self.states {
            None => other.states.is_none(),
            Some(states) => other.has_states(states.as_slice()),
        }
    }

    /// Whether these are the states.
    fn has_states(&self, states: &[(Text, KeyState)]) -> bool
        ensures { result ≡ true → self.now.states ≡ states.now }
    {
        match &self.states {
            None => false,
            Some(own) => are_same(own.as_slice(), states),
        }
    }
}

/// Whether two keys are the same, and in the same state.
fn is_same_entry(left: &(Text, KeyState), right: &(Text, KeyState)) -> bool
    ensures { result ≡ true → left.now ≡ right.now }
{
    left.0 == right.0 && are_same_states(&left.1, &right.1)
}

/// Whether these are the same keys, in the same states.
fn are_same(left: &[(Text, KeyState)], right: &[(Text, KeyState)]) -> bool
    ensures { result ≡ true → left.now ≡ right.now }
{
    if left.len() != right.len() {
        return false;
    }
    for i in 0..left.len() {
        if !is_same_entry(&left[i], &right[i]) {
            return false;
        }
    }
    true
}
