//! What the attempts of runners had read of keys: a state for each runner, in which a key that was absent has "" and 0.
ghost use Rattle.std.specs.Prelude.{◌≤◌, ◌<◌, length, IfOk, IfSome};
ghost use Rattle.stm_history.specs.declared.revisions.TheConstants.{HIGHEST_NUMBER};

use std::alloc::{AllocError, Global};
use std::mem::replace;
use stm_history::{HIGHEST_NUMBER, Text};
use stm_retry::{Reply, Store};
use stm_steps::State;

/// The value and the modification revision of a key at a revision: "" and 0 where it was absent.
fn key_at(alloc: Global, store: &Store, key: &str, revision: u64) -> Result<(Text, u64), AllocError>
    ensures { IfOk result (λ found. found.1 ≤ HIGHEST_NUMBER) }
{
    match store.keys().get_at(key, revision) {
        Ok(Some(found)) => {
            let value = Text::copy_of(alloc, found.value.as_str())?;
            Ok((value, found.mod_rev.min(HIGHEST_NUMBER)))
        }
        _ => Ok((Text::new(String::new(alloc)), 0)),
    }
}

/// Notes what a key was at a revision.
fn set_key(
    alloc: Global,
    state: &mut State,
    store: &Store,
    key: &str,
    revision: u64,
) -> Result<(), AllocError> {
    let (value, mod_rev) = key_at(alloc, store, key, revision)?;
    let key = Text::copy_of(alloc, key)?;
    state.insert(key, value, mod_rev)
}

/// What the same keys were at another revision.
fn renewed(
    alloc: Global,
    state: &State,
    store: &Store,
    revision: u64,
) -> Result<State, AllocError> {
    let mut new = State::new(alloc);
    for index in 0..state.len() {
        let entry = state.at(index);
        set_key(alloc, &mut new, store, entry.key.as_str(), revision)?;
    }
    Ok(new)
}

/// The index of the runner with a number. They are numbered from 1 in the order of their starts.
pub(crate) fn index_of(runners: &[State], runner: u64) -> Option<usize>
    ensures within { IfSome result (λ index. index < length runners.now) }
    ensures numbered { IfSome result (λ _. 0 < runner) }
{
    if runner == 0 || runner > runners.len() as u64 {
        return None;
    }
    Some((runner - 1) as usize)
}

/// Notes what a fetch answered a runner.
fn note_fetch(
    alloc: Global,
    runners: &mut [State],
    store: &Store,
    runner: u64,
    key: &Text,
    revision: u64,
) -> Result<(), AllocError> {
    match index_of(runners, runner) {
        Some(index) => set_key(alloc, &mut runners[index], store, key.as_str(), revision),
        None => Ok(()),
    }
}

/// Notes what a failed commit reported to a runner: what its keys are now.
fn note_conflict(
    alloc: Global,
    runners: &mut [State],
    store: &Store,
    runner: u64,
) -> Result<(), AllocError> {
    match index_of(runners, runner) {
        Some(index) => {
            let now = store.keys().revision();
            let state = renewed(alloc, &runners[index], store, now)?;
            drop(replace(&mut runners[index], state));
            Ok(())
        }
        None => Ok(()),
    }
}

/// Forgets what a runner had read, whose run is over.
pub(crate) fn forget(alloc: Global, runners: &mut [State], runner: u64) {
    if let Some(index) = index_of(runners, runner) {
        drop(replace(&mut runners[index], State::new(alloc)));
    }
}

/// Notes what a reply shows a runner, by the store as the event has left it. A runner that came to a fault keeps what it had read: it is still to be
/// explained.
pub(crate) fn note(
    alloc: Global,
    runners: &mut [State],
    store: &Store,
    reply: &Reply,
) -> Result<(), AllocError> {
    match reply {
        Reply::Prefetched {
            runner,
            revision,
            reads,
        } => {
            for read in reads.as_slice() {
                note_fetch(alloc, runners, store, *runner, &read.key, *revision)?;
            }
            Ok(())
        }
        Reply::Fetched {
            runner,
            key,
            of_rev,
            ..
        } => note_fetch(alloc, runners, store, *runner, key, *of_rev),
        Reply::Conflict { runner, .. } => note_conflict(alloc, runners, store, *runner),
        Reply::Committed { runner, .. }
        | Reply::GaveUp { runner, .. }
        | Reply::Aborted { runner, .. }
        | Reply::Ended { runner, .. } => {
            forget(alloc, runners, *runner);
            Ok(())
        }
        _ => Ok(()),
    }
}

/// Notes the start of a runner.
pub(crate) fn begin(alloc: Global, runners: &mut Vec<State>) -> Result<(), AllocError> {
    runners.push(State::new(alloc))?;
    Ok(())
}
