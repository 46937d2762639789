//! Runners that wait for others.
ghost use Rattle.std.specs.Prelude.{◌≡◌, ◌-◌, slice_get};
ghost use Rattle.std.specs.List.{list_all};
ghost use Rattle.stm_explore.specs.Waiting.{has_committed, is_over, is_over_at, lets, is_allowed};

use stm_schedules::{Move, RunnerEnd};

/// A runner waits for another: it makes no step before that one has ended, and none at all unless that one has committed, where it is to.
#[derive(Clone, Copy, Debug, PartialEq, Eq)]
pub struct Wait {
    /// The number of the runner that waits.
    pub runner: u64,
    /// The number of the runner that it waits for.
    pub first: u64,
    /// Whether that one has to commit.
    pub committed: bool,
}

/// Whether a run has committed.
fn has_committed(end: &RunnerEnd) -> bool
    ensures { result ≡ has_committed end.now }
{
    matches!(end, RunnerEnd::Committed { .. })
}

/// Whether a wait for a runner is over, of which this is known.
fn is_over(committed: bool, known: &Option<RunnerEnd>) -> bool
    ensures { result ≡ is_over committed known.now }
{
    match known {
        None => false,
        Some(end) => !committed || has_committed(end),
    }
}

/// Whether a wait is over, by what is known of the ends.
fn is_over_at(wait: &Wait, ends: &[Option<RunnerEnd>]) -> bool
    ensures { result ≡ is_over_at wait.now.committed (slice_get ends.now (wait.now.first - 1)) }
{
    let index = wait.first.saturating_sub(1);
    if index < ends.len() as u64 {
        return is_over(wait.committed, &ends[index as usize]);
    }
    false
}

/// Whether a wait lets a runner make a step.
fn lets(ends: &[Option<RunnerEnd>], runner: u64, wait: &Wait) -> bool
    ensures { result ≡ lets ends.now runner wait.now }
{
    wait.runner != runner || is_over_at(wait, ends)
}

/// Whether every wait lets a runner make a step.
fn all_let(waits: &[Wait], ends: &[Option<RunnerEnd>], runner: u64) -> bool
    ensures { result ≡ list_all (lets ends.now runner) waits.now }
{
    waits.iter().all(|wait| lets(ends, runner, wait))
}

/// Whether a move is allowed.
pub(crate) fn is_allowed(waits: &[Wait], ends: &[Option<RunnerEnd>], chosen: Move) -> bool
    ensures { result ≡ is_allowed waits.now ends.now chosen }
{
    match chosen {
        Move::Step { runner } => all_let(waits, ends, runner),
        Move::Other => true,
    }
}
