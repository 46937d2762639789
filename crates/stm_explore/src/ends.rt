//! What is known of the ends of runners.
ghost use Rattle.std.specs.Prelude.{◌≡◌, ◌↔◌, IsTrue, true, ◌++◌, [], ◌∷◌, map, Option, Some, None, slice_set, IfOk, OnOk};
ghost use Rattle.stm_schedules.specs.Outcomes.{with_end, after_reply, after_reported, after_replies, known_ends};

use std::alloc::{AllocError, Global};
use stm_history::Sequence;
use stm_meaning::Value;
use stm_schedules::RunnerEnd;
use stm_world::{Denied, Reply};

/// A copy of a run's output.
fn copy_of_output(output: &Sequence<Value>) -> Result<Sequence<Value>, AllocError>
    ensures { IfOk result (λ copy. copy ≡ output.now) }
{
    output.clone()
}

/// A copy of how a run ended.
pub(crate) fn copy_of(end: &RunnerEnd) -> Result<RunnerEnd, AllocError>
    ensures { IfOk result (λ copy. copy ≡ end.now) }
{
    match end {
        RunnerEnd::Committed { output } => {
            let output = copy_of_output(output)?;
            Ok(RunnerEnd::Committed { output })
        }
        RunnerEnd::GaveUp { key } => {
            let key = key.clone()?;
            Ok(RunnerEnd::GaveUp { key })
        }
        RunnerEnd::Aborted { text } => {
            let text = text.clone()?;
            Ok(RunnerEnd::Aborted { text })
        }
        RunnerEnd::Faulted { fault } => Ok(RunnerEnd::Faulted { fault: *fault }),
        RunnerEnd::Ended { cause } => Ok(RunnerEnd::Ended { cause: *cause }),
    }
}

/// A copy of what is known of one runner's end.
fn copy_of_known(end: &Option<RunnerEnd>) -> Result<Option<RunnerEnd>, AllocError>
    ensures { IfOk result (λ copy. copy ≡ end.now) }
{
    match end {
        None => Ok(None),
        Some(end) => {
            let copy = copy_of(end)?;
            Ok(Some(copy))
        }
    }
}

/// A copy of what is known of the ends.
pub(crate) fn copy_of_ends(
    alloc: Global,
    ends: &[Option<RunnerEnd>],
) -> Result<Vec<Option<RunnerEnd>>, AllocError>
    ensures { IfOk result (λ copy. copy.items ≡ ends.now) }
{
    let mut copy = Vec::with_capacity(alloc, ends.len())?;
    for end in ends {
        copy.push(copy_of_known(end)?)?;
    }
    Ok(copy)
}

/// Whether two runs ended in the same way.
fn is_same_end(left: &RunnerEnd, right: &RunnerEnd) -> bool
    ensures { IsTrue result ↔ left.now ≡ right.now }
{
    left == right
}

/// Whether the same is known of one runner's end.
fn is_same_known(left: &Option<RunnerEnd>, right: &Option<RunnerEnd>) -> bool
    ensures { result ≡ true → left.now ≡ right.now }
{
    match left {
        None => right.is_none(),
        Some(end) => match right {
            None => false,
            Some(other) => is_same_end(end, other),
        },
    }
}

/// Whether the same is known of the ends.
pub(crate) fn are_same_ends(left: &[Option<RunnerEnd>], right: &[Option<RunnerEnd>]) -> bool
    ensures { result ≡ true → left.now ≡ right.now }
{
    if left.len() != right.len() {
        return false;
    }
    for i in 0..left.len() {
        if !is_same_known(&left[i], &right[i]) {
            return false;
        }
    }
    true
}

/// The ends that are known, by the runners' numbers.
pub(crate) fn known_ends(
    alloc: Global,
    ends: &[Option<RunnerEnd>],
) -> Result<Sequence<RunnerEnd>, AllocError>
    ensures { IfOk result (λ list. list ≡ known_ends ends.now) }
{
    let mut list = Vec::new(alloc);
    for end in ends {
        if let Some(end) = end {
            list.push(copy_of(end)?)?;
        }
    }
    Ok(Sequence::of(list))
}

/// Records how the runner with this number ended.
fn set_end(ends: &mut Vec<Option<RunnerEnd>>, runner: u64, end: RunnerEnd)
    ensures { ends.new.items ≡ with_end runner end ends.old.items }
{
    let index = runner.saturating_sub(1);
    if index < ends.len() as u64 {
        ends[index as usize] = Some(end);
    }
}

/// Records what a reply says of the ends: a runner is begun, or has ended.
fn note_reply(ends: &mut Vec<Option<RunnerEnd>>, reply: &Reply) -> Result<(), AllocError>
    ensures { OnOk result (ends.new.items ≡ after_reply reply.now ends.old.items) }
{
    match reply {
        Reply::Started { .. } => ends.push(None)?,
        Reply::Committed { runner, output, .. } => {
            let output = copy_of_output(output)?;
            set_end(ends, *runner, RunnerEnd::Committed { output });
        }
        Reply::GaveUp { runner, key, .. } => {
            let key = key.clone()?;
            set_end(ends, *runner, RunnerEnd::GaveUp { key });
        }
        Reply::Aborted { runner, text } => {
            let text = text.clone()?;
            set_end(ends, *runner, RunnerEnd::Aborted { text });
        }
        Reply::Faulted { runner, fault } => set_end(
            ends,
            *runner,
            RunnerEnd::Faulted { fault: *fault },
        ),
        Reply::Ended { runner, cause } => set_end(
            ends,
            *runner,
            RunnerEnd::Ended { cause: *cause },
        ),
        _ => {}
    }
    Ok(())
}

/// Records what a reply or a refusal says of the ends: a refusal says nothing.
pub(crate) fn note_end(
    ends: &mut Vec<Option<RunnerEnd>>,
    reported: &Result<Reply, Denied>,
) -> Result<(), AllocError>
    ensures { OnOk result (ends.new.items ≡ after_reported reported.now ends.old.items) }
{
    match reported {
        Ok(reply) => note_reply(ends, reply),
        Err(_) => Ok(()),
    }
}

/// What these replies say of the ends of runners, by the runners' numbers: nothing of one whose run goes on.
///
/// It fails only when out of memory.
pub fn ends_reported(
    alloc: Global,
    replies: &[Result<Reply, Denied>],
) -> Result<Vec<Option<RunnerEnd>>, AllocError>
    ensures { IfOk result (λ ends. ends.items ≡ after_replies replies.now []) }
{
    let mut ends = Vec::new(alloc);
    for reply in replies {
        note_end(&mut ends, reply)?;
    }
    Ok(ends)
}
