//! What is said of a schedule that breaks a rule: whether it is a race, and which runs gave up in it.

use crate::parts::{list_of, number_at, text_at};
use serde_json::Value as Json;
use std::alloc::{AllocError, Global};
use stm_compiling::{NamedRunner, Wait as SourceWait, name_of_runner};
use stm_explain::Said;
use stm_explore::Wait;

/// What is said of a schedule in which no two programs overlap, and no event of the others comes within one.
const NO_RACE: &str = "this schedule runs one program after another: it is no race\n";

/// What an event does for the runs of programs.
#[derive(Clone, Copy)]
enum Effect {
    /// A run of this runner goes on.
    GoesOn(u64),
    /// A run of this runner commits, and so ends.
    Commits(u64),
    /// A run of this runner ends otherwise.
    Ends(u64),
    /// It is none of a run, and comes from outside.
    Other,
    /// It begins no run, and changes nothing.
    Nothing,
}

/// What is known of a schedule so far.
#[derive(Clone, Copy)]
struct Walk {
    /// The runner whose run goes on, if one does.
    open: Option<u64>,
    /// Whether a run has made a step.
    has_step: bool,
    /// Whether something came within a run.
    overlaps: bool,
}

impl Walk {
    /// Notes an event.
    fn note(&mut self, effect: Effect) {
        match effect {
            Effect::GoesOn(runner) => self.step(runner, Some(runner)),
            Effect::Commits(runner) | Effect::Ends(runner) => self.step(runner, None),
            Effect::Other => self.overlaps = self.overlaps || self.open.is_some(),
            Effect::Nothing => {}
        }
    }

    /// Notes a step of a runner, behind which this run goes on, if one does.
    fn step(&mut self, runner: u64, open: Option<u64>) {
        let overlaps = match self.open {
            Some(open) => open != runner,
            None => false,
        };
        self.has_step = true;
        self.overlaps = self.overlaps || overlaps;
        self.open = open;
    }
}

/// Whether a schedule runs one program after another, and no event of the others comes within one.
fn is_no_race(effects: &[Effect]) -> bool {
    let mut walk = Walk {
        open: None,
        has_step: false,
        overlaps: false,
    };
    for effect in effects {
        walk.note(*effect);
    }
    walk.has_step && !walk.overlaps
}

/// How far a schedule is with a wait.
#[derive(Clone, Copy, PartialEq, Eq)]
enum Gap {
    /// The run that is waited for has not ended, or not as it is to.
    Unended,
    /// So it was when the one that waits made a step.
    Early,
    /// It has, and nobody changed anything since.
    Shut,
    /// It has, and others changed something since.
    Wide,
    /// The run that waited goes on, and nobody had changed anything between the two.
    Passed,
    /// The same, and others had.
    Apart,
}

/// How far a schedule is once the runner of a wait made a step.
fn begun(gap: Gap) -> Gap {
    match gap {
        Gap::Unended | Gap::Early => Gap::Early,
        Gap::Shut | Gap::Passed => Gap::Passed,
        Gap::Wide | Gap::Apart => Gap::Apart,
    }
}

/// How far it is once another runner committed, or something came from outside.
fn widened(gap: Gap) -> Gap {
    match gap {
        Gap::Shut => Gap::Wide,
        _ => gap,
    }
}

/// How far it is with a wait once a run of this runner ended, and has committed or has not.
fn ended(gap: Gap, wait: Wait, runner: u64, committed: bool) -> Gap {
    match gap {
        Gap::Unended if wait.first == runner && (committed || !wait.committed) => Gap::Shut,
        _ => gap,
    }
}

/// The runner that makes a step with an event, if one does.
fn runner_of(effect: Effect) -> Option<u64> {
    match effect {
        Effect::GoesOn(runner) | Effect::Commits(runner) | Effect::Ends(runner) => Some(runner),
        Effect::Other | Effect::Nothing => None,
    }
}

/// How far it is with a wait behind an event.
fn gap_behind(gap: Gap, wait: Wait, effect: Effect) -> Gap {
    if runner_of(effect) == Some(wait.runner) {
        return begun(gap);
    }
    match effect {
        Effect::Commits(runner) => ended(widened(gap), wait, runner, true),
        Effect::Ends(runner) => ended(gap, wait, runner, false),
        Effect::Other => widened(gap),
        Effect::GoesOn(_) | Effect::Nothing => gap,
    }
}

/// How far a schedule comes with a wait.
fn gap_of(effects: &[Effect], wait: Wait) -> Gap {
    let mut gap = Gap::Unended;
    for effect in effects {
        gap = gap_behind(gap, wait, *effect);
    }
    gap
}

/// What an event does, by the elements of its line in a report. What stands at the end of a report does nothing.
fn effect_of(parts: &[Json]) -> Effect {
    if number_at(parts, 0).is_none() {
        return Effect::Nothing;
    }
    let runner = number_at(parts, 2).unwrap_or(0);
    match text_at(parts, 1).unwrap_or("") {
        "prefetched" | "fetched" | "conflict" => Effect::GoesOn(runner),
        "committed" => Effect::Commits(runner),
        "gaveup" | "aborted" | "faulted" | "ended" => Effect::Ends(runner),
        "started" | "refused" => Effect::Nothing,
        _ => Effect::Other,
    }
}

/// A runner by its name, where it has one, and its number.
fn runner_in_words(alloc: Global, runners: &[NamedRunner], runner: u64) -> Said {
    match name_of_runner(runners, runner) {
        Some(name) => format!(in alloc; "{name} (runner {runner})"),
        None => format!(in alloc; "runner {runner}"),
    }
}

/// Adds that a run gave up, by the elements of its line.
fn push_gave_up(
    alloc: Global,
    out: &mut String,
    parts: &[Json],
    runners: &[NamedRunner],
) -> Result<(), AllocError> {
    let limit = number_at(parts, 3).unwrap_or(0);
    let runner = runner_in_words(alloc, runners, number_at(parts, 2).unwrap_or(0))?;
    let line = format!(in alloc; "{runner} gave up: its limit is {limit}\n")?;
    out.push_str(line.as_str())
}

/// Adds what is said of an event, by the elements of its line.
fn push_event(
    alloc: Global,
    out: &mut String,
    parts: &[Json],
    runners: &[NamedRunner],
) -> Result<(), AllocError> {
    let is_event = number_at(parts, 0).is_some();
    if is_event && text_at(parts, 1).unwrap_or("") == "gaveup" {
        return push_gave_up(alloc, out, parts, runners);
    }
    Ok(())
}

/// Adds of each of these waits that others changed something between the two runs, if they did, and answers whether they did for one.
fn push_apart(
    alloc: Global,
    out: &mut String,
    effects: &[Effect],
    runners: &[NamedRunner],
    waits: &[Wait],
) -> Result<bool, AllocError> {
    let mut is_said = false;
    for wait in waits {
        if gap_of(effects, *wait) == Gap::Apart {
            let runner = runner_in_words(alloc, runners, wait.runner)?;
            let first = runner_in_words(alloc, runners, wait.first)?;
            let line = format!(in alloc;
                "{runner} waits for {first}, and others came between the two: no level compares what the first one read\n"
            )?;
            out.push_str(line.as_str())?;
            is_said = true;
        }
    }
    Ok(is_said)
}

/// What each event of a report does.
fn effects_of(alloc: Global, report: &str) -> Result<Vec<Effect>, AllocError> {
    let mut effects = Vec::new(alloc);
    for line in report.lines() {
        if let Ok(json) = Json::from_str(alloc, line) {
            effects.push(effect_of(list_of(&json)))?;
        }
    }
    Ok(effects)
}

/// What is said of a schedule that breaks a rule, by the report of its run, in lines with line feeds: of each run that gave up, with the commits that it could
/// send; of each runner that waited for another one, if others changed something between the two; and else, where no two programs overlap in it and no event
/// of the others comes within one, that it is no race. It fails only when out of memory.
pub fn schedule_in_words(
    alloc: Global,
    report: &str,
    runners: &[NamedRunner],
    waits: &[Wait],
) -> Said {
    let mut out = String::new(alloc);
    for line in report.lines() {
        if let Ok(json) = Json::from_str(alloc, line) {
            push_event(alloc, &mut out, list_of(&json), runners)?;
        }
    }
    let effects = effects_of(alloc, report)?;
    let is_apart = push_apart(alloc, &mut out, effects.as_slice(), runners, waits)?;
    if !is_apart && is_no_race(effects.as_slice()) {
        out.push_str(NO_RACE)?;
    }
    Ok(out)
}

/// Whether the runner of a wait makes a step before the run that it waits for has ended as it is to.
fn is_early(effects: &[Effect], wait: SourceWait) -> bool {
    let wait = Wait {
        runner: wait.runner,
        first: wait.ended,
        committed: wait.committed,
    };
    gap_of(effects, wait) == Gap::Early
}

/// Those of the waits of a source that the run with this report does not keep: the runner made a step too early. It fails only when out of memory.
pub fn waits_broken(
    alloc: Global,
    report: &str,
    waits: &[SourceWait],
) -> Result<Vec<SourceWait>, AllocError> {
    let effects = effects_of(alloc, report)?;
    let mut broken = Vec::new(alloc);
    for wait in waits {
        if is_early(effects.as_slice(), *wait) {
            broken.push(*wait)?;
        }
    }
    Ok(broken)
}
