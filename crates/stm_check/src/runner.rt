//! The runs of runners, as the replies to events say.
ghost use Rattle.std.specs.Prelude.{◌≡◌, ◌++◌, ◌∷◌, [], is_some, option_copied, OnOk};
ghost use Rattle.stm_events.specs.Called.{asked};
ghost use Rattle.stm_check.specs.Runners.{next_runner, started_in, running, with_conflict, ended, with_runner, begun, after_step, runners_after};

use std::alloc::AllocError;
use stm_events::{Denied, Reply, WorldEvent};
use stm_program::{Level, Program};

/// A run of a runner: its program and level, how many commits it may send, how many conflicts it had, and whether it
/// has ended.
#[derive(Debug, Drop)]
pub struct Runner {
    /// The program.
    pub program: Program,
    /// The level that its runs are at.
    pub level: Level,
    /// How many commits the run may send.
    pub limit: u32,
    /// How many conflicts the replies to its steps reported.
    pub conflicts: u64,
    /// Whether one of them ended it.
    pub is_over: bool,
}

impl Runner {
    /// Counts a conflict. A count beyond 64 bits is returned as a failed allocation.
    fn count_conflict(&mut self) -> Result<(), AllocError>
        ensures { OnOk result (self.new ≡ with_conflict self.old) }
    {
        match self.conflicts.checked_add(1) {
            Some(count) => {
                self.conflicts = count;
                Ok(())
            }
            None => Err(AllocError),
        }
    }

    /// Ends the run.
    fn end(&mut self)
        ensures { self.new ≡ ended self.old }
    {
        self.is_over = true;
    }
}

/// The number of the next runner to be started.
pub(crate) fn next_number(runners: &[Runner]) -> u64
    ensures { result ≡ next_runner runners.now }
{
    runners.len() as u64 + 1
}

/// The run of a runner that was started.
fn find_started(runners: &[Runner], id: u64) -> Option<&Runner>
    ensures { option_copied result ≡ started_in id runners.now }
{
    if id == 0 || id > runners.len() as u64 {
        None
    } else {
        Some(&runners[(id - 1) as usize])
    }
}

/// The run of a runner that was started and has not ended.
pub(crate) fn find_running(runners: &[Runner], id: u64) -> Option<&Runner>
    ensures { option_copied result ≡ running id runners.now }
{
    match find_started(runners, id) {
        None => None,
        Some(runner) => { if runner.is_over { None } else { Some(runner) } }
    }
}

/// Whether a runner was started and has not ended.
pub(crate) fn is_running(runners: &[Runner], id: u64) -> bool
    ensures { result ≡ is_some (running id runners.now) }
{
    find_running(runners, id).is_some()
}

/// Adds a run of a program.
fn begin(
    runners: &mut Vec<Runner>,
    program: &Program,
    level: Level,
    limit: u32,
) -> Result<(), AllocError>
    ensures { OnOk result (runners.new.items ≡ runners.old.items ++ begun program.now level limit ∷ []) }
{
    let program = program.clone()?;
    runners.push(Runner {
        program,
        level,
        limit,
        conflicts: 0,
        is_over: false,
    })?;
    Ok(())
}

/// Counts a conflict of a runner, if it was started.
fn count_conflict_of(runners: &mut Vec<Runner>, id: u64) -> Result<(), AllocError>
    ensures { OnOk result (runners.new.items ≡ with_runner id with_conflict runners.old.items) }
{
    if id == 0 || id > runners.len() as u64 {
        return Ok(());
    }
    runners[(id - 1) as usize].count_conflict()
}

/// Ends the run of a runner, if it was started.
fn end_run_of(runners: &mut Vec<Runner>, id: u64)
    ensures { runners.new.items ≡ with_runner id ended runners.old.items }
{
    if id == 0 || id > runners.len() as u64 {
        return;
    }
    runners[(id - 1) as usize].end();
}

/// Takes over what the reply to a step reports of its runner.
fn note_step(
    runners: &mut Vec<Runner>,
    id: u64,
    reply: &Result<Reply, Denied>,
) -> Result<(), AllocError>
    ensures { OnOk result (runners.new.items ≡ after_step id reply.now runners.old.items) }
{
    match reply {
        Ok(Reply::Conflict { .. }) => count_conflict_of(runners, id),
        Ok(Reply::Committed { .. }) => Ok(end_run_of(runners, id)),
        Ok(Reply::GaveUp { .. }) => Ok(end_run_of(runners, id)),
        Ok(Reply::Aborted { .. }) => Ok(end_run_of(runners, id)),
        Ok(Reply::Faulted { .. }) => Ok(end_run_of(runners, id)),
        Ok(Reply::Ended { .. }) => Ok(end_run_of(runners, id)),
        _ => Ok(()),
    }
}

/// Takes over what the reply to an event reports of the runners.
pub(crate) fn note(
    runners: &mut Vec<Runner>,
    event: &WorldEvent,
    reply: &Result<Reply, Denied>,
) -> Result<(), AllocError>
    ensures { OnOk result (runners.new.items ≡ runners_after (asked event.now) reply.now runners.old.items) }
{
    match event {
        WorldEvent::Start {
            program,
            level,
            limit,
        } => match reply {
            Ok(Reply::Started { .. }) => begin(runners, program, *level, *limit),
            _ => Ok(()),
        },
        WorldEvent::Step { runner } => note_step(runners, *runner, reply),
        _ => Ok(()),
    }
}
