//! The events of one revision.
ghost use Rattle.std.specs.Prelude.{◌≡◌, [], ◌∷◌, IfOk, List, ℕ, true};
ghost use Rattle.stm_keys.specs.Held.{events_held};
ghost use Rattle.stm_keys.specs.Within.{Ascend, those_within};

use crate::event::Event;
use std::alloc::AllocError;
use std::marker::Model;
use std::slice;
use stm_history::Text;

/// Of how many events it is noted whether they ascend by their keys. A transaction has fewer; the end of a lease may have any number, and deletes
/// its keys in their order.
const MANY: usize = 256;

/// Where the events of a revision stand. Most revisions have one.
#[derive(Debug, Drop)]
pub(crate) enum Held {
    /// In the revision itself.
    One(Event),
    /// In memory of their own.
    More(Vec<Event>),
    /// The same, where their keys ascend.
    Ascending(Vec<Event>),
}

/// The events of a revision, in the order of operations. One made by `one` takes no memory of its own.
///
/// Contracts see them in order, and never where they stand.
#[derive(Debug)]
pub(crate) struct Events {
    held: Held,
}

impl Drop for Events {
    fn drop(self) {
        let Events { held: _ } = self;
    }
}

impl Model for Events {
    ghost use Rattle.std.specs.Prelude.{List};
    ghost use Rattle.stm_keys.specs.declared.event.Event.{Event};
    ghost use Rattle.stm_keys.specs.Held.{events_held, IsInOrder};

    ghost Value = { List Event };

    ghost view = { λ e. events_held e.held };

    ghost invariant = { λ e. IsInOrder e.held };
}

/// A copy of one event, which is held in the revision itself.
fn copy_one(event: &Event) -> Result<Events, AllocError>
    ensures { IfOk result (λ copy. copy ≡ event.now ∷ []) }
{
    let event = event.clone()?;
    Ok(Events::one(event))
}

/// A copy of events that are held in memory of their own.
fn copy_more(events: &Vec<Event>) -> Result<Events, AllocError>
    ensures { IfOk result (λ copy. copy ≡ events.now.items) }
{
    let events = events.clone()?;
    Ok(Events::of(events))
}

/// The copy shares the text of each key.
impl Clone for Events {
    ghost is_clone = { λ events copy. copy ≡ events };

    fn clone(&self) -> Result<Events, AllocError> {
        match &self.held {
            Held::One(event) => copy_one(event),
            Held::More(events) => copy_more(events),
            Held::Ascending(events) => copy_more(events),
        }
    }
}

/// Whether the keys of events ascend.
fn ascend(events: &[Event]) -> bool
    ensures { result ≡ true → Ascend events.now }
{
    events.is_sorted_by(|event, next| !next.key().cmp(event.key()).is_lt())
}

/// Those of ascending events that are not before a key.
fn from_key<'a>(events: &'a [Event], first: &Text) -> &'a [Event]
    requires { Ascend events.now }
    ensures ascend { Ascend result.now }
    ensures those { (last : List ℕ) → those_within first.now last result.now ≡ those_within first.now last events.now }
{
    let before = events.partition_point(|event| event.key().cmp(first).is_lt());
    &events[before..]
}

/// Those of ascending events that are not behind a key.
fn up_to_key<'a>(events: &'a [Event], last: &Text) -> &'a [Event]
    requires { Ascend events.now }
    ensures { (first : List ℕ) → those_within first last.now result.now ≡ those_within first last.now events.now }
{
    let upto = events.partition_point(|event| !last.cmp(event.key()).is_lt());
    &events[..upto]
}

impl Events {
    /// One event.
    pub(crate) fn one(event: Event) -> Events
        ensures { result ≡ event ∷ [] }
    {
        Events {
            held: Held::One(event),
        }
    }

    /// The events of a list.
    pub(crate) fn of(events: Vec<Event>) -> Events
        ensures { result ≡ events.items }
    {
        let held = if events.len() >= MANY && ascend(events.as_slice()) {
            Held::Ascending(events)
        } else {
            Held::More(events)
        };
        Events { held }
    }

    /// The events, where they stand.
    pub(crate) fn into_held(self) -> Held
        ensures { events_held result ≡ self }
    {
        let Events { held } = self;
        held
    }

    /// The events in order.
    pub(crate) fn as_slice(&self) -> &[Event]
        ensures { result.now ≡ self.now }
    {
        match &self.held {
            Held::One(event) => slice::from_ref(event),
            Held::More(events) => events.as_slice(),
            Held::Ascending(events) => events.as_slice(),
        }
    }

    /// Some of the events in order, among them those of each key from the first to the last one: these alone where they are found by halves.
    pub(crate) fn within(&self, first: &Text, last: &Text) -> &[Event]
        ensures { those_within first.now last.now result.now ≡ those_within first.now last.now self.now }
    {
        match &self.held {
            Held::Ascending(events) => up_to_key(from_key(events.as_slice(), first), last),
            _ => self.as_slice(),
        }
    }
}
