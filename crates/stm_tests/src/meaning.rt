//! Worked programs, by what they read and by their effects on a state. What is expected comes from the description of the
//! language, and never from a run.

use crate::attempts::program;
use std::alloc::{AllocError, Global};
use std::process::Abort;
use std::test::Fail;
use stm_history::Text;
use stm_meaning::{Run, State, apply_alone, latest_writes, run_alone};
use stm_program::{Program, Write};

fn add_entry(
    alloc: Global,
    key: &str,
    value: &str,
    revision: u8,
    state: &mut State,
) -> Result<(), AllocError> {
    let key = Text::copy_of(alloc, key)?;
    let value = Text::copy_of(alloc, value)?;
    state.insert(key, value, u64::from(revision))
}

/// A state of keys, values and modification revisions. Where a key comes twice, the later value counts.
fn state_of(alloc: Global, entries: &[(&str, &str, u8)]) -> Result<State, AllocError> {
    let mut state = State::new(alloc);
    for &(key, value, revision) in entries {
        add_entry(alloc, key, value, revision, &mut state)?;
    }
    Ok(state)
}

/// Writes, a space before each.
fn report_writes(reported: &mut String, writes: &[Write]) -> Result<(), AllocError> {
    for written in writes {
        match written {
            Write::Put { key, value, lease } => write!(reported, " {key}={value}/{lease}")?,
            Write::Del { key } => write!(reported, " -{key}")?,
        }
    }
    Ok(())
}

/// Each write of the effect of these writes on a state.
fn report_effect(
    alloc: Global,
    reported: &mut String,
    writes: &[Write],
    state: &State,
) -> Result<(), AllocError> {
    let effect = apply_alone(alloc, writes, state)?;
    let done = report_writes(reported, effect.as_slice());
    drop(effect);
    done
}

fn count_latest(alloc: Global, writes: &[Write]) -> Result<usize, AllocError> {
    let latest = latest_writes(alloc, writes)?;
    Ok(latest.len())
}

/// The number of a run's reads, counted and listed, and of its latest writes, and then each write of its effect.
fn report_counts(
    alloc: Global,
    reported: &mut String,
    run: &Run,
    state: &State,
) -> Result<(), AllocError> {
    let writes = run.writes.as_slice();
    let latest = count_latest(alloc, writes)?;
    let reads = run.reads.as_slice().len();
    write!(reported, "{}/{reads} {latest}", run.reads.len())?;
    report_effect(alloc, reported, writes, state)
}

fn report_alone(
    alloc: Global,
    reported: &mut String,
    program: &Program,
    state: &State,
) -> Result<(), AllocError> {
    let run = run_alone(alloc, program, state)?;
    let done = report_counts(alloc, reported, &run, state);
    drop(run);
    done
}

/// The same of a program's run on a state of these entries.
fn report_on(
    alloc: Global,
    reported: &mut String,
    program: &Program,
    entries: &[(&str, &str, u8)],
) -> Result<(), AllocError> {
    let state = state_of(alloc, entries)?;
    let done = report_alone(alloc, reported, program, &state);
    drop(state);
    done
}

/// The same of the program of a text.
fn report_effect_of(
    alloc: Global,
    reported: &mut String,
    text: &str,
    entries: &[(&str, &str, u8)],
) -> Result<(), Fail> {
    let program = program(alloc, text)?;
    let done = report_on(alloc, reported, &program, entries);
    drop(program);
    Ok(done?)
}

/// Two accounts. The first is put twice.
const ACCOUNTS: [(&str, &str, u8); 3] = [("a1", "100", 2), ("a0", "7", 2), ("a0", "100", 3)];

/// Transfers over the two accounts, from one to the other and from one to itself: the number of keys that the run reads, counted and listed, and that
/// of its latest writes, and then each write of its effect.
const RUNS: [(&str, &str); 2] = [
    (
        r#"[["put","a0",["text_of",["sub",["num_of",["get","a0"]],30]],0],
        ["put","a1",["text_of",["add",["num_of",["get","a1"]],30]],0]]"#,
        "2/2 2 a0=70/0 a1=130/0",
    ),
    (
        r#"[["put","a0",["text_of",["sub",["num_of",["get","a0"]],30]],0],["del","absent"],
        ["put","a0",["text_of",["add",["num_of",["get","a0"]],30]],0]]"#,
        "1/1 2 a0=100/0",
    ),
];

/// Asserts what is shown of a program.
fn is_reported(rt: &impl Abort, alloc: Global, text: &str, expected: &str) -> Result<(), Fail> {
    let mut reported = String::new(alloc);
    report_effect_of(alloc, &mut reported, text, &ACCOUNTS)?;
    assert_eq!(rt; reported.as_str(), expected);
    Ok(())
}

#[test]
fn runs_have_reads_and_effects(rt: HostRuntime) -> Result<(), Fail> {
    for (text, expected) in RUNS {
        is_reported(&rt, rt.alloc(), text, expected)?;
    }
    Ok(())
}
