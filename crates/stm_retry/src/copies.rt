//! What is copied of an attempt before its commit is sent.
ghost use Rattle.std.specs.Prelude.{◌≡◌, map, option_map, IfOk};
ghost use Rattle.stm_history.specs.declared.key_state.KeyState.{KeyState as State};
ghost use Rattle.stm_entries.specs.Entered.{answers_kept};
ghost use Rattle.stm_events.specs.Replies.{committed_read};

use std::alloc::{AllocError, Global};
use stm_attempt::Ready;
use stm_events::CommittedRead;
use stm_history::{KeyState, ReadAnswer, Sequence, Text, mod_rev_of};
use stm_meaning::{TraceItem, Value};
use stm_program::Level;

/// Copies of what is reported of the commit of an attempt.
#[derive(Debug, Drop)]
pub(crate) struct Copies {
    /// What the run emitted, in order.
    pub(crate) output: Sequence<Value>,
    /// What each `get` and `rev` of it gave, in order.
    pub(crate) trace: Sequence<TraceItem>,
    /// At ReadCommitted the answers that it read; none at the other levels.
    pub(crate) answers: Sequence<CommittedRead>,
}

/// A copy of a run's output.
fn copy_output(output: &Sequence<Value>) -> Result<Sequence<Value>, AllocError>
    ensures { IfOk result (λ copy. copy ≡ output.now) }
{
    output.clone()
}

/// A copy of a run's trace.
fn copy_trace(trace: &Sequence<TraceItem>) -> Result<Sequence<TraceItem>, AllocError>
    ensures { IfOk result (λ copy. copy ≡ trace.now) }
{
    trace.clone()
}

/// A copy of the value of a key, where it is present.
fn copy_value(kv: &Option<KeyState>) -> Result<Option<Text>, AllocError>
    ensures { IfOk result (λ copy. copy ≡ option_map (λ (s : State). s.value) kv.now) }
{
    match kv {
        None => Ok(None),
        Some(state) => Ok(Some(state.value.clone()?)),
    }
}

/// What is reported of an answer that a commit was made on.
fn read_committed(answer: &ReadAnswer) -> Result<CommittedRead, AllocError>
    ensures { IfOk result (λ read. read ≡ committed_read answer.now) }
{
    let key = answer.key.clone()?;
    let value = copy_value(&answer.kv)?;
    Ok(CommittedRead {
        key,
        value,
        mod_rev: mod_rev_of(&answer.kv),
        of_rev: answer.of_rev,
    })
}

/// What is reported of the answers that a commit was made on, in their order.
fn reads_committed(
    alloc: Global,
    answers: &[ReadAnswer],
) -> Result<Sequence<CommittedRead>, AllocError>
    ensures { IfOk result (λ reads. reads ≡ map committed_read answers.now) }
{
    let mut reads = Sequence::new(alloc);
    for answer in answers {
        reads.push(read_committed(answer)?)?;
    }
    Ok(reads)
}

/// What is reported of a commit's answers at a level.
fn copy_kept(
    alloc: Global,
    level: Level,
    answers: &[ReadAnswer],
) -> Result<Sequence<CommittedRead>, AllocError>
    ensures { IfOk result (λ copy. copy ≡ map committed_read (answers_kept level answers.now)) }
{
    match level {
        Level::SerializableSnapshot => Ok(Sequence::new(alloc)),
        Level::Serializable => Ok(Sequence::new(alloc)),
        Level::RepeatableReads => Ok(Sequence::new(alloc)),
        Level::ReadCommitted => {
            let reads = reads_committed(alloc, answers)?;
            Ok(reads)
        }
    }
}

/// Copies what is reported of the commit of an attempt. It fails only where an allocation failed.
pub(crate) fn copies_of(alloc: Global, ready: &Ready) -> Result<Copies, AllocError>
    ensures output { IfOk result (λ copies. copies.output ≡ ready.now.output) }
    ensures trace { IfOk result (λ copies. copies.trace ≡ ready.now.trace) }
    ensures answers { IfOk result (λ copies. copies.answers ≡ map committed_read (answers_kept ready.now.level ready.now.answers)) }
{
    let output = copy_output(&ready.output)?;
    let trace = copy_trace(&ready.trace)?;
    let answers = copy_kept(alloc, ready.level, ready.answers.as_slice())?;
    Ok(Copies {
        output,
        trace,
        answers,
    })
}
