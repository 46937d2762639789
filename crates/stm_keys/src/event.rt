//! What a change of a key shows to those who watch it.
ghost use Rattle.std.specs.Prelude.{◌≡◌, option_copied, None, Some};
ghost use Rattle.stm_keys.specs.Events.{key_of_event, event_about, after_event, AreApart};
ghost use Rattle.stm_keys.specs.NextChange.{is_between};
ghost use Rattle.stm_keys.specs.Runs.{is_any_about};

use crate::shared_text::SharedText;
use stm_history::{KeyState, Text};

/// One event of a revision: etcd's `Event` of a watch response.
#[derive(Debug, Drop, Clone, PartialEq, Eq)]
pub enum Event {
    /// The key was put, and has this state since.
    Put { key: SharedText, state: KeyState },
    /// The key was deleted at this revision.
    Delete { key: SharedText, revision: u64 },
}

impl Event {
    /// The key that the event is about.
    pub fn key(&self) -> &Text
        ensures { result.now ≡ key_of_event self.now }
    {
        self.shared_key().text()
    }

    /// What the key is since the event, `None` where it is absent.
    pub(crate) fn state(&self) -> Option<&KeyState>
        ensures { option_copied result ≡ after_event (Some self.now) None }
    {
        match self {
            Event::Put { state, .. } => Some(state),
            Event::Delete { .. } => None,
        }
    }

    /// What the key is since the event, `None` where it is absent.
    pub(crate) fn into_state(self) -> Option<KeyState>
        ensures { result ≡ after_event (Some self) None }
    {
        match self {
            Event::Put { key: _key, state } => Some(state),
            Event::Delete { .. } => None,
        }
    }

    /// The key that the event is about, as it can be shared.
    pub(crate) fn shared_key(&self) -> &SharedText
        ensures { result.now ≡ key_of_event self.now }
    {
        match self {
            Event::Put { key, .. } => key,
            Event::Delete { key, .. } => key,
        }
    }
}

/// Whether one of these events is about a key from the first on and below the end.
pub(crate) fn is_any_between(events: &[Event], first: &Text, end: &Text) -> bool
    ensures { result ≡ is_any_about (is_between first.now end.now) events.now }
{
    for event in events {
        let key = event.key();
        if first.cmp(key).is_le() && key.cmp(end).is_lt() {
            return true;
        }
    }
    false
}

/// The event of a key among the events of one revision, if there is one.
pub(crate) fn find_event<'a>(events: &'a [Event], key: &str) -> Option<&'a Event>
    ensures { option_copied result ≡ event_about key.now events.now }
{
    for event in events {
        if event.key().as_str() == key {
            return Some(event);
        }
    }
    None
}

/// The same of events that are about different keys: it is looked for first at a spot, and among all where it does not stand there.
#[inline(always)]
pub(crate) fn find_event_at<'a>(events: &'a [Event], key: &str, spot: usize) -> Option<&'a Event>
    requires { AreApart events.now }
    ensures { option_copied result ≡ event_about key.now events.now }
{
    if spot < events.len() {
        let event = &events[spot];
        if event.key().as_str() == key {
            return Some(event);
        }
    }
    find_event(events, key)
}
