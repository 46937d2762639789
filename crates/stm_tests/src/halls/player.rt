//! Steps on a hall, with ample memory, and what they show.
//!
//! An example is a list of steps and one text: a test that holds a hall in hand over many calls is slow to prove.

use crate::attempts::{attempted, program};
use crate::shown::{
    report_advanced, report_entries, report_fetched, report_foreign, report_judged,
    report_one_fetched,
};
use crate::transactions::{Change, changes_of, read_of};
use std::alloc::{AllocError, Global};
use std::process::Abort;
use std::test::Fail;
use stm_attempt::Next;
use stm_hall::{Hall, Ready, prepare};
use stm_program::Program;
use stm_txn::{Refusal, Store};

/// A step of an example, in constants.
#[derive(Clone, Copy)]
pub(crate) enum Step {
    /// A foreign transaction that makes these changes, in their order.
    Foreign(&'static [Change]),
    Advance(u64),
    /// What a caller that has seen a revision reads of a key.
    Fetch(&'static str, u64),
    /// What it fetches of a key at a revision, where it has seen the last one.
    FetchAt(&'static str, u64, u64),
    /// The verdict on an attempt that emits "a" and was given this value and modification revision for it, at most 2, the verdict on the
    /// same one once more, prepared, and how many entries there are then.
    Emit(&'static str, u64),
    /// Whether a key was changed above a revision.
    IsChangedAbove(&'static str, u64),
    /// The number of keys of the state.
    State,
    Entries,
}

fn foreign(
    alloc: Global,
    reported: &mut String,
    hall: &mut Hall,
    changes: &[Change],
) -> Result<(), AllocError> {
    let txn = changes_of(alloc, changes)?;
    let made = hall.foreign(&txn);
    drop(txn);
    let done = report_foreign(reported, &made);
    drop(made);
    done
}

fn advance(reported: &mut String, hall: &mut Hall, moment: u64) -> Result<(), AllocError> {
    let advanced = hall.advance(moment);
    let done = report_advanced(reported, &advanced);
    drop(advanced);
    done
}

fn fetch(
    alloc: Global,
    reported: &mut String,
    hall: &mut Hall,
    key: &str,
    seen: u64,
) -> Result<(), AllocError> {
    let txn = read_of(alloc, key)?;
    let fetched = hall.fetch(seen, &txn);
    drop(txn);
    let done = report_fetched(reported, &fetched);
    drop(fetched);
    done
}

fn fetch_at(
    reported: &mut String,
    hall: &Hall,
    key: &str,
    at: u64,
    seen: u64,
) -> Result<(), AllocError> {
    let fetched = hall.fetch_one(seen, key, at);
    let done = report_one_fetched(reported, &fetched);
    drop(fetched);
    done
}

fn commit(reported: &mut String, hall: &mut Hall, ready: &Ready) -> Result<(), AllocError> {
    let judged = hall.commit(ready);
    let done = report_judged(reported, &judged);
    drop(judged);
    done?;
    reported.push_str("; ")
}

/// The verdict on an attempt whose commit is prepared.
fn commit_prepared(
    alloc: Global,
    reported: &mut String,
    hall: &mut Hall,
    ready: Ready,
) -> Result<(), AllocError> {
    let prepared = prepare(ready);
    let judged = hall.commit_prepared(prepared);
    let done = report_judged(reported, &judged);
    drop(judged);
    done
}

/// The verdict on an attempt that is ready, that on the same one once more, prepared, and how many entries the hall has then.
fn commit_twice(
    alloc: Global,
    reported: &mut String,
    hall: &mut Hall,
    ready: Ready,
) -> Result<(), AllocError> {
    let done = commit(reported, hall, &ready);
    if done.is_err() {
        drop(ready);
        return done;
    }
    commit_prepared(alloc, reported, hall, ready)?;
    write!(reported, "; {} entries", hall.entries().len())
}

/// The same, of an attempt that was given this value and modification revision; none where the revision is above 2.
fn emit(
    alloc: Global,
    reported: &mut String,
    hall: &mut Hall,
    program: &Program,
    value: &str,
    mod_rev: u64,
) -> Result<(), AllocError> {
    if mod_rev > 2 {
        return reported.push_str("no attempt");
    }
    match attempted(alloc, program, value, mod_rev)? {
        Next::Ready(ready) => commit_twice(alloc, reported, hall, ready),
        _ => reported.push_str("no commit"),
    }
}

fn report_keys(reported: &mut String, hall: &Hall) -> Result<(), AllocError> {
    let state = hall.state()?;
    let count = state.len();
    drop(state);
    write!(reported, "{count} keys")
}

/// Takes one step, and shows what was answered.
fn take(
    alloc: Global,
    reported: &mut String,
    hall: &mut Hall,
    program: &Program,
    step: Step,
) -> Result<(), AllocError> {
    match step {
        Step::Foreign(changes) => foreign(alloc, reported, hall, changes),
        Step::Advance(moment) => advance(reported, hall, moment),
        Step::Fetch(key, seen) => fetch(alloc, reported, hall, key, seen),
        Step::FetchAt(key, at, seen) => fetch_at(reported, hall, key, at, seen),
        Step::Emit(value, mod_rev) => emit(alloc, reported, hall, program, value, mod_rev),
        Step::IsChangedAbove(key, since) => write!(
            reported,
            "{}",
            hall.is_changed_above(key, since)
        ),
        Step::State => report_keys(reported, hall),
        Step::Entries => report_entries(reported, hall.entries()),
    }
}

/// Takes the steps, and shows the answers, `; ` after each.
fn take_all(
    alloc: Global,
    reported: &mut String,
    hall: &mut Hall,
    program: &Program,
    steps: &[Step],
) -> Result<(), AllocError> {
    for step in steps {
        take(alloc, reported, hall, program, *step)?;
        reported.push_str("; ")?;
    }
    Ok(())
}

/// Makes changes in a store.
fn change(alloc: Global, store: &mut Store, changes: &[Change]) -> Result<(), Refusal> {
    let txn = changes_of(alloc, changes)?;
    let answer = store.txn(&txn);
    drop(txn);
    drop(answer?);
    Ok(())
}

/// Grants lease 1 of 5 seconds and lease 2 of 10, and makes these changes.
fn fill(alloc: Global, store: &mut Store, changes: &[Change]) -> Result<(), Refusal> {
    store.grant(1, 5)?;
    store.grant(2, 10)?;
    change(alloc, store, changes)
}

/// A hall over a store with these leases, in which these changes were made.
fn hall_over(alloc: Global, changes: &[Change]) -> Result<Hall, Fail> {
    let mut store = Store::new(alloc)?;
    match fill(alloc, &mut store, changes) {
        Ok(()) => Ok(Hall::new(alloc, store)),
        Err(refusal) => {
            drop(store);
            Err(refusal.into())
        }
    }
}

/// What the steps show, in a hall of their own.
fn play(
    alloc: Global,
    program: &Program,
    changes: &[Change],
    steps: &[Step],
) -> Result<String, Fail> {
    let mut reported = String::new(alloc);
    let mut hall = hall_over(alloc, changes)?;
    let done = take_all(alloc, &mut reported, &mut hall, program, steps);
    drop(hall);
    done?;
    Ok(reported)
}

fn played(alloc: Global, changes: &[Change], steps: &[Step]) -> Result<String, Fail> {
    let program = program(alloc, r#"[["emit",["get","a"]]]"#)?;
    let reported = play(alloc, &program, changes, steps);
    drop(program);
    reported
}

/// Asserts what the steps show, in a hall over a store with these leases, in which these changes were made.
pub(crate) fn is_reported(
    rt: &impl Abort,
    alloc: Global,
    changes: &[Change],
    steps: &[Step],
    expected: &str,
) -> Result<(), Fail> {
    let reported = played(alloc, changes, steps)?;
    assert_eq!(rt; reported.as_str(), expected);
    Ok(())
}
