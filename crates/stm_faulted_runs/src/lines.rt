//! Lines that explain runs.
ghost use Rattle.std.specs.Prelude.{◌≡◌, ◌++◌, [], ◌∷◌, Ok as OkOf, IfOk, OnOk, string_bytes};
ghost use Rattle.stm_explain.specs.Explaining.{IsExplanationOf};
ghost use Rattle.stm_faulted_runs.specs.Lines.{run_head, reported_by, IsMoreOfReported, IsLineOf, Adds};
ghost use Rattle.stm_faulted_runs.specs.ReportedFaults.{reported_run, reported_as};
ghost use Rattle.stm_faulted_runs.specs.Origins.{origin_in};

use crate::following::index_of;
use crate::places::{Place, place_of_run};
use crate::runs::Explained;
use std::alloc::{AllocError, Global};
use stm_explain::{Marked, Said};
use stm_retry::{Denied, Reply};
use stm_steps::{Fault, Lookup, State};

/// A fault that a reply reports.
#[derive(Clone, Copy)]
pub(crate) struct ReportedFault {
    /// The number of the event.
    pub(crate) event: u64,
    /// The number of the runner.
    pub(crate) runner: u64,
    /// The fault.
    pub(crate) fault: Fault,
}

/// The words of a line.
pub(crate) fn words_of(alloc: Global, head: &str, more: &str) -> Said
    ensures { IfOk result (λ words. string_bytes words ≡ head.now ++ more.now) }
{
    let mut words = String::from_str(alloc, head)?;
    words.push_str(more)?;
    Ok(words)
}

/// A line that begins so, of a fault at a place.
pub(crate) fn line_of(alloc: Global, marked: &Marked<'_>, head: &str, place: &Place) -> Said
    ensures { IfOk result (λ line. IsExplanationOf marked.now.name.now marked.now.text.now (head.now ++ string_bytes place.now.more) (string_bytes line)) }
{
    let words = words_of(alloc, head, place.more.as_str())?;
    marked.explained_at(alloc, place.steps.as_slice(), words.as_str())
}

/// Where a run came to the fault that was reported, over what its runner had read.
fn place_over<L: Lookup>(
    alloc: Global,
    explained: &Explained<'_>,
    reported: ReportedFault,
    lookup: &L,
) -> Result<Place, AllocError>
    ensures { IfOk result (λ place. IsMoreOfReported (origin_in explained.now) (reported_run reported) (string_bytes place.more)) }
{
    let number = reported.runner.saturating_sub(1);
    place_of_run(alloc, explained, number, lookup, reported.fault)
}

/// Where the run came to the fault that was reported, by what runners had read.
fn place_reported(
    alloc: Global,
    explained: &Explained<'_>,
    runners: &[State],
    reported: ReportedFault,
) -> Result<Place, AllocError>
    ensures { IfOk result (λ place. IsMoreOfReported (origin_in explained.now) (reported_run reported) (string_bytes place.more)) }
{
    match index_of(runners, reported.runner) {
        Some(index) => place_over(alloc, explained, reported, &runners[index]),
        None => place_over(alloc, explained, reported, &State::new(alloc)),
    }
}

/// The head of a run's line.
fn run_head(alloc: Global, event: u64, fault: Fault, runner: u64) -> Said
    ensures { IfOk result (λ head. string_bytes head ≡ run_head event fault runner) }
{
    format!(in alloc; "event {event}: {fault} of runner {runner}")
}

/// The line of a run that came to a fault.
fn run_line(
    alloc: Global,
    explained: &Explained<'_>,
    runners: &[State],
    reported: ReportedFault,
) -> Said
    ensures { IfOk result (λ line. IsLineOf (origin_in explained.now) (reported_run reported) (string_bytes line)) }
{
    let place = place_reported(alloc, explained, runners, reported)?;
    let head = run_head(alloc, reported.event, reported.fault, reported.runner)?;
    line_of(alloc, &explained.marked, head.as_str(), &place)
}

/// Adds the line of a run that came to a fault.
fn push_run(
    alloc: Global,
    out: &mut String,
    explained: &Explained<'_>,
    runners: &[State],
    reported: ReportedFault,
) -> Result<(), AllocError>
    ensures { OnOk result (Adds (origin_in explained.now) (reported_run reported ∷ []) (string_bytes out.old) (string_bytes out.new)) }
{
    let line = run_line(alloc, explained, runners, reported)?;
    out.push_str(line.as_str())?;
    Ok(())
}

/// The fault that a reply to the event with this number reports, if it reports one.
fn fault_reported(event: u64, reply: &Reply) -> Option<ReportedFault>
    ensures { reported_by event (OkOf reply.now) ≡ reported_as result }
{
    match reply {
        Reply::Faulted { runner, fault } => Some(ReportedFault {
            event,
            runner: *runner,
            fault: *fault,
        }),
        _ => None,
    }
}

/// The fault that is reported where the event with this number has its reply, or is denied.
pub(crate) fn fault_in(event: u64, reply: &Result<Reply, Denied>) -> Option<ReportedFault>
    ensures { reported_by event reply.now ≡ reported_as result }
{
    match reply {
        Ok(reply) => fault_reported(event, reply),
        Err(_) => None,
    }
}

/// Adds the line of a fault that was reported.
pub(crate) fn push_reported(
    alloc: Global,
    out: &mut String,
    explained: &Explained<'_>,
    runners: &[State],
    reported: Option<ReportedFault>,
) -> Result<(), AllocError>
    ensures { OnOk result (Adds (origin_in explained.now) (reported_as reported) (string_bytes out.old) (string_bytes out.new)) }
{
    match reported {
        Some(reported) => push_run(alloc, out, explained, runners, reported),
        None => Ok(()),
    }
}
