//! What a watcher watches, and how far it has been notified.
ghost use Rattle.std.specs.Prelude.{◌≡◌, ◌&&◌, nat_lt, Some};
ghost use Rattle.stm_watch.specs.Keys.{is_watched, is_range, first_key, last_key};
ghost use Rattle.stm_watch.specs.Places.{is_lost};

use stm_keys::Text;

/// The keys that a watcher watches.
#[derive(Debug, Drop, Clone)]
pub enum Watched {
    /// One key.
    Key(Text),
    /// The keys from `first` on that are below `end`, by bytes: none where `end` is not above `first`.
    Range { first: Text, end: Text },
}

impl Watched {
    /// The key, or the first one of the range.
    pub(crate) fn first_key(&self) -> &Text
        ensures { result.now ≡ first_key self.now }
    {
        match self {
            Watched::Key(key) => key,
            Watched::Range { first, .. } => first,
        }
    }

    /// The key, or the end of the range: no key that is watched is behind it.
    pub(crate) fn last_key(&self) -> &Text
        ensures { result.now ≡ last_key self.now }
    {
        match self {
            Watched::Key(key) => key,
            Watched::Range { end, .. } => end,
        }
    }

    /// Whether a key is watched.
    pub fn has(&self, key: &Text) -> bool
        ensures { result ≡ is_watched self.now key.now }
    {
        match self {
            Watched::Key(watched) => watched == key,
            Watched::Range { first, end } => first.cmp(key).is_le() && key.cmp(end).is_lt(),
        }
    }

    /// Whether a range is watched.
    pub(crate) fn is_range(&self) -> bool
        ensures { result ≡ is_range (Some self.now) }
    {
        match self {
            Watched::Key(_) => false,
            Watched::Range { .. } => true,
        }
    }
}

/// A watcher: what it watches, how far it has been notified, and the first revision of which events are pending for it.
#[derive(Debug, Drop, Clone)]
pub struct Watcher {
    /// What it watches.
    pub watched: Watched,
    /// It was notified of, or did not want to know, what happened up to this revision.
    pub seen: u64,
    /// The first revision of which events are pending, `None` where none are. The watcher is ready where there is one, and lost where
    /// that one is below the store's floor.
    pub first: Option<u64>,
}

impl Watcher {
    /// Whether the watcher wants to know of a change of a key at a new revision.
    pub(crate) fn wants(&self, revision: u64, key: &Text) -> bool
        ensures { result ≡ (nat_lt self.now.seen revision && is_watched self.now.watched key.now) }
    {
        revision > self.seen && self.watched.has(key)
    }

    /// Whether events that it was to see are below a floor.
    pub(crate) fn is_lost(&self, floor: u64) -> bool
        ensures { result ≡ is_lost floor self.now.first }
    {
        match self.first {
            None => false,
            Some(first) => first < floor,
        }
    }
}
