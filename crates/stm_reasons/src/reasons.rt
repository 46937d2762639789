//! The reasons of a run.
ghost use Rattle.std.specs.Prelude.{◌≡◌, ◌++◌, ◌<◌, ◌≤◌, ◌∷◌, [], length, IfOk, OnOk};
ghost use Rattle.stm_reasons.specs.Reasons.{failed, stale_read, modified_before, if_stale, stale_reads, reasons_at, reasons_of};
ghost use Rattle.stm_reasons.specs.Causes.{cause};

use crate::causes::{cause, state_by};
use crate::counting::{counter_at, counters};
use crate::looks::last_look;
use crate::reason::{Cause, Ending, Reason};
use std::alloc::{AllocError, Global};
use stm_events::{CommittedRead, Denied, Reply};
use stm_history::{Text, found_mod_rev};
use stm_keys::Keys;

/// A run of events: the store's keys after it, the store's revision before the first event and after each, and the replies.
#[derive(Clone, Copy)]
struct Told<'a> {
    keys: &'a Keys,
    counters: &'a [u64],
    replies: &'a [Result<Reply, Denied>],
}

/// Why the commit of a runner failed after so many events.
fn failed(
    told: &Told<'_>,
    before: usize,
    ending: Ending,
    runner: u64,
    key: &Text,
    seen: u64,
) -> Result<Reason, AllocError>
    requires { before < length told.now.replies.now }
    ensures { IfOk result (λ reason. reason
        ≡ failed told.now.keys.now.history told.now.counters.now told.now.replies.now before ending runner key.now seen) }
{
    let name = key.as_str();
    let look = last_look(runner, name, told.counters, told.replies, before);
    let since = look.revision.max(seen);
    let cause = cause(told.keys, name, told.counters, told.replies, since, before);
    let key = key.clone()?;
    Ok(Reason {
        event: before as u64 + 1,
        runner,
        ending,
        key,
        seen,
        read: look.event,
        cause,
    })
}

/// The modification revision of a key just before the event after so many.
fn modified_before(told: &Told<'_>, before: usize, key: &Text) -> u64
    ensures { result ≡ modified_before told.now.keys.now.history told.now.counters.now before key.now }
{
    found_mod_rev(state_by(told.keys, key.as_str(), counter_at(told.counters, before)))
}

/// A read that the commit of a runner was made on after so many events, whose key has changed since.
fn stale_read(
    told: &Told<'_>,
    before: usize,
    runner: u64,
    answer: &CommittedRead,
    change: Cause,
) -> Result<Reason, AllocError>
    requires { before < length told.now.replies.now }
    ensures { IfOk result (λ reason. reason ≡ stale_read told.now.counters.now told.now.replies.now before runner answer.now change) }
{
    let look = last_look(
        runner,
        answer.key.as_str(),
        told.counters,
        told.replies,
        before,
    );
    let key = answer.key.clone()?;
    Ok(Reason {
        event: before as u64 + 1,
        runner,
        ending: Ending::Stale,
        key,
        seen: answer.mod_rev,
        read: look.event,
        cause: Some(change),
    })
}

/// Adds a read of a commit, if its key is not as it was read.
fn push_if_stale(
    reasons: &mut Vec<Reason>,
    told: &Told<'_>,
    before: usize,
    runner: u64,
    answer: &CommittedRead,
) -> Result<(), AllocError>
    requires { before < length told.now.replies.now }
    ensures { OnOk result (reasons.new.items ≡ reasons.old.items
        ++ if_stale told.now.keys.now.history told.now.counters.now told.now.replies.now before runner answer.now
        (cause told.now.keys.now.history answer.now.key told.now.counters.now told.now.replies.now answer.now.of_rev before)) }
{
    let name = answer.key.as_str();
    match cause(
        told.keys,
        name,
        told.counters,
        told.replies,
        answer.of_rev,
        before,
    ) {
        None => Ok(()),
        Some(change) => {
            if modified_before(told, before, &answer.key) == answer.mod_rev {
                return Ok(());
            }
            reasons.push(stale_read(told, before, runner, answer, change)?)?;
            Ok(())
        }
    }
}

/// Adds the reads of a commit whose keys are not as they were read.
fn push_stale_reads(
    reasons: &mut Vec<Reason>,
    told: &Told<'_>,
    before: usize,
    runner: u64,
    answers: &[CommittedRead],
) -> Result<(), AllocError>
    requires { before < length told.now.replies.now }
    ensures { OnOk result (reasons.new.items ≡ reasons.old.items
        ++ stale_reads told.now.keys.now.history told.now.counters.now told.now.replies.now before runner answers.now) }
{
    for answer in answers {
        push_if_stale(reasons, told, before, runner, answer)?;
    }
    Ok(())
}

/// Adds what there is to tell of the reply to the event after so many.
fn push_reasons(
    reasons: &mut Vec<Reason>,
    told: &Told<'_>,
    before: usize,
    reply: &Result<Reply, Denied>,
) -> Result<(), AllocError>
    requires { before < length told.now.replies.now }
    ensures { OnOk result (reasons.new.items ≡ reasons.old.items
        ++ reasons_at told.now.keys.now.history told.now.counters.now told.now.replies.now before reply.now) }
{
    match reply {
        Ok(
            Reply::Conflict {
                runner,
                key,
                seen,
                ..
            },
        ) => {
            reasons.push(failed(told, before, Ending::Conflict, *runner, key, *seen)?)?;
        }
        Ok(
            Reply::GaveUp {
                runner,
                key,
                seen,
                ..
            },
        ) => {
            reasons.push(failed(told, before, Ending::GaveUp, *runner, key, *seen)?)?;
        }
        Ok(
            Reply::Committed {
                runner,
                answers,
                ..
            },
        ) => {
            push_stale_reads(reasons, told, before, *runner, answers.as_slice())?;
        }
        _ => {}
    }
    Ok(())
}

/// Why the commits of a run failed, and on what commits at ReadCommitted went through that no longer was so, in the order of the events: of a run with these
/// replies, from a store that was at this revision before it and whose keys are these since. It fails where a growth was refused.
///
/// A commit at another level compares what it read, so nothing is told of one that was made.
pub fn reasons_of(
    alloc: Global,
    keys: &Keys,
    opened: u64,
    replies: &[Result<Reply, Denied>],
) -> Result<Vec<Reason>, AllocError>
    ensures { IfOk result (λ reasons. reasons.items ≡ reasons_of keys.now.history opened replies.now) }
{
    let counters = counters(alloc, opened, replies)?;
    let told = Told {
        keys,
        counters: counters.as_slice(),
        replies,
    };
    let mut reasons = Vec::new(alloc);
    for (before, reply) in replies.iter().enumerate() {
        push_reasons(&mut reasons, &told, before, reply)?;
    }
    Ok(reasons)
}
