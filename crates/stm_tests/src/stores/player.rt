//! Steps on a store, with ample memory, and what they show.
//!
//! An example is a list of steps and one text: a test that holds a store in hand over many calls is slow to prove.

use crate::shown::{report_advanced, report_foreign};
use crate::transactions::{Change, changes_of};
use std::alloc::{AllocError, Global};
use std::process::Abort;
use std::test::Fail;
use stm_txn::{Refusal, Store};

/// A step of an example, in constants.
#[derive(Clone, Copy)]
pub(crate) enum Step {
    /// A transaction that makes these changes, in their order. Its revision is shown.
    Change(&'static [Change]),
    /// Compacts the store at a revision.
    Compact(u64),
    Grant(u64, u64),
    Revoke(u64),
    Advance(u64),
    /// Watches a key from a revision on.
    Watch(&'static str, u64),
    /// Watches the keys from the first on that are below the second.
    WatchRange(&'static str, &'static str, u64),
    Cancel(u64),
    /// A poll of at most the second number of revisions: up to which revision it reports.
    Poll(u64, u64),
    /// The number of a watcher that is ready.
    Next,
    /// Whether one of these two is ready, where several are.
    NextIsOneOf(u64, u64),
}

fn change(
    alloc: Global,
    reported: &mut String,
    store: &mut Store,
    changes: &[Change],
) -> Result<(), AllocError> {
    let txn = changes_of(alloc, changes)?;
    let made = store.txn(&txn);
    drop(txn);
    let done = report_foreign(reported, &made);
    drop(made);
    done
}

fn advance(reported: &mut String, store: &mut Store, moment: u64) -> Result<(), AllocError> {
    let advanced = store.advance(moment);
    let done = report_advanced(reported, &advanced);
    drop(advanced);
    done
}

/// That something was done, or why it was refused.
fn report_done(reported: &mut String, done: Result<(), Refusal>) -> Result<(), AllocError> {
    match done {
        Ok(()) => reported.push_str("done"),
        Err(refusal) => write!(reported, "{refusal}"),
    }
}

/// The number that was answered, after a word, or why it was refused.
fn report_answered(
    reported: &mut String,
    word: &str,
    answered: Result<u64, Refusal>,
) -> Result<(), AllocError> {
    match answered {
        Ok(number) => write!(reported, "{word}{number}"),
        Err(refusal) => write!(reported, "{refusal}"),
    }
}

fn poll(reported: &mut String, store: &mut Store, id: u64, most: u64) -> Result<(), AllocError> {
    match store.poll(id, most) {
        Ok(batch) => write!(reported, "upto {}", batch.upto),
        Err(refusal) => write!(reported, "{refusal}"),
    }
}

fn report_next(reported: &mut String, store: &Store) -> Result<(), AllocError> {
    match store.next_ready() {
        None => reported.push_str("none"),
        Some(id) => write!(reported, "{id}"),
    }
}

fn next_is_one_of(
    reported: &mut String,
    store: &Store,
    first: u64,
    second: u64,
) -> Result<(), AllocError> {
    let next = store.next_ready();
    write!(reported, "{}", next == Some(first) || next == Some(second))
}

/// Takes one step, and shows what was answered.
fn take(
    alloc: Global,
    reported: &mut String,
    store: &mut Store,
    step: Step,
) -> Result<(), AllocError> {
    match step {
        Step::Change(changes) => change(alloc, reported, store, changes),
        Step::Compact(revision) => report_done(reported, store.compact(revision)),
        Step::Grant(id, ttl) => report_done(reported, store.grant(id, ttl)),
        Step::Revoke(id) => report_answered(reported, "at ", store.revoke(id)),
        Step::Advance(moment) => advance(reported, store, moment),
        Step::Watch(key, from) => report_answered(reported, "", store.watch_key(key, from)),
        Step::WatchRange(first, end, from) => {
            report_answered(reported, "", store.watch_range(first, end, from))
        }
        Step::Cancel(id) => report_done(reported, store.cancel(id)),
        Step::Poll(id, most) => poll(reported, store, id, most),
        Step::Next => report_next(reported, store),
        Step::NextIsOneOf(first, second) => next_is_one_of(reported, store, first, second),
    }
}

/// Takes the steps, and shows the answers, `; ` after each.
fn take_all(
    alloc: Global,
    reported: &mut String,
    store: &mut Store,
    steps: &[Step],
) -> Result<(), AllocError> {
    for step in steps {
        take(alloc, reported, store, *step)?;
        reported.push_str("; ")?;
    }
    Ok(())
}

/// Takes the steps on a new store, and returns the text of the answers.
fn play(alloc: Global, steps: &[Step]) -> Result<String, AllocError> {
    let mut reported = String::new(alloc);
    let mut store = Store::new(alloc)?;
    let done = take_all(alloc, &mut reported, &mut store, steps);
    drop(store);
    done?;
    Ok(reported)
}

/// Asserts what is shown of each of these lists of steps, each on a new store.
pub(crate) fn are_reported(
    rt: &impl Abort,
    alloc: Global,
    rows: &[(&'static [Step], &str)],
) -> Result<(), Fail> {
    for &(steps, expected) in rows {
        let reported = play(alloc, steps)?;
        assert_eq!(rt; reported.as_str(), expected);
    }
    Ok(())
}
