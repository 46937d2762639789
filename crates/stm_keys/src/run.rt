//! Runs of revisions, and which keys they change.
ghost use Rattle.std.specs.Prelude.{◌≡◌, ◌≤◌, ◌+◌, ◌++◌, List, ℕ, Bool, length, map, IfOk, OnOk};
ghost use Rattle.std.specs.List.{list_any};
ghost use Rattle.stm_keys.specs.Events.{key_of_event};
ghost use Rattle.stm_keys.specs.NextChange.{is_between};
ghost use Rattle.stm_keys.specs.Runs.{SumsUp, IsAhead};

use crate::chains::Revisions;
use crate::event::Event;
use crate::shared_text::SharedText;
use std::alloc::{AllocError, Global};
use std::marker::Model;
use std::sync::Arc;
use stm_history::Text;

/// What is known of the revisions above one, of the keys of a range.
#[derive(Debug, Drop, Clone, Copy)]
pub(crate) enum Ahead {
    /// None up to this one changes such a key.
    Idle(u64),
    /// Nothing is known up to this one.
    Unknown(u64),
}

/// A run of revisions, those above `from`, up to `upto`, and the keys that they change, in the order of their bytes.
#[derive(Debug)]
pub(crate) struct Run {
    from: u64,
    upto: u64,
    keys: Arc<Vec<SharedText>>,
}

impl Drop for Run {
    fn drop(self) {
        let Run {
            from: _,
            upto: _,
            keys: _,
        } = self;
    }
}

impl Model for Run {
    ghost use Rattle.std.specs.Ordering.{nat_cmp};
    ghost use Rattle.std.specs.Cmp.Lexicographic.{slice_cmp};
    ghost use Rattle.std.specs.List.Sorted.{IsSorted};
    ghost use Rattle.stm_keys.specs.Runs.{Run as Seen};

    ghost Value = { Seen };

    ghost view = { λ r. record { from = r.from; upto = r.upto; keys = r.keys.value.items } };

    ghost invariant = { λ r. IsSorted (slice_cmp nat_cmp) r.keys.value.items };
}

/// The copy shares the keys. It takes no memory.
impl Clone for Run {
    ghost is_clone = { λ run copy. copy ≡ run };

    fn clone(&self) -> Result<Run, AllocError> {
        let keys = self.keys.clone()?;
        Ok(Run {
            from: self.from,
            upto: self.upto,
            keys,
        })
    }
}

/// Puts the keys of events behind others.
fn push_keys(keys: &mut Vec<SharedText>, events: &[Event]) -> Result<(), AllocError>
    ensures { OnOk result (keys.new.items ≡ keys.old.items ++ map key_of_event events.now) }
{
    for event in events {
        keys.push(event.shared_key().clone()?)?;
    }
    Ok(())
}

/// A run of these keys, in any order.
fn run_of(alloc: Global, from: u64, upto: u64, keys: Vec<SharedText>) -> Result<Run, AllocError>
    ensures from { IfOk result (λ run. run.from ≡ from) }
    ensures upto { IfOk result (λ run. run.upto ≡ upto) }
    ensures keys { IfOk result (λ run. (passes : List ℕ → Bool) → list_any passes run.keys ≡ list_any passes keys.items) }
{
    let mut keys = keys;
    keys.sort_unstable();
    keys.shrink_to_fit();
    let keys = Arc::new(alloc, keys)?;
    Ok(Run { from, upto, keys })
}

/// The run above one revision, up to another that has come.
pub(crate) fn sum_of(
    alloc: Global,
    revisions: &Revisions,
    below: u64,
    from: u64,
    upto: u64,
) -> Result<Run, AllocError>
    requires { upto ≤ below + length revisions.now.items }
    ensures { IfOk result (SumsUp below revisions.now.items) }
{
    let mut keys = Vec::new(alloc);
    let mut number = from.max(below);
    'revisions: while number < upto {
        let index = (number - below) as usize;
        push_keys(&mut keys, revisions[index].as_slice())?;
        number += 1;
    }
    let made = run_of(alloc, from, upto, keys)?;
    Ok(made)
}

impl Run {
    /// The revision that the run begins above.
    pub(crate) fn from(&self) -> u64
        ensures { result ≡ self.now.from }
    {
        self.from
    }

    /// The last revision of the run.
    pub(crate) fn upto(&self) -> u64
        ensures { result ≡ self.now.upto }
    {
        self.upto
    }

    /// Whether a key from the first on is below the end, of which it is told by halves.
    pub(crate) fn has_between(&self, first: &Text, end: &Text) -> bool
        ensures { result ≡ list_any (is_between first.now end.now) self.now.keys }
    {
        let keys = self.keys.as_slice();
        let place = keys.partition_point(|key| key.text().cmp(first).is_lt());
        if place < keys.len() {
            keys[place].text().cmp(end).is_lt()
        } else {
            false
        }
    }

    /// What the run tells of the revisions above one, of the keys of a range.
    pub(crate) fn ahead(&self, passed: u64, first: &Text, end: &Text) -> Ahead
        ensures { (below : ℕ) (recorded : List (List Event)) → below ≤ passed → SumsUp below recorded self.now →
            IsAhead below recorded (is_between first.now end.now) passed result }
    {
        if passed < self.from || self.upto <= passed {
            return Ahead::Unknown(self.upto);
        }
        if !self.has_between(first, end) {
            return Ahead::Idle(self.upto);
        }
        Ahead::Unknown(self.upto)
    }
}
