//! A copy of an attempt.
ghost use Rattle.std.specs.Prelude.{◌≡◌, IfOk};
ghost use Rattle.stm_program.specs.Writes.{latest_writes};

use std::alloc::{AllocError, Global};
use stm_attempt::{ReadSet, Ready, WriteBuffer};
use stm_history::Sequence;
use stm_meaning::{TraceItem, Value};
use stm_program::Program;

/// A copy of a program.
fn copy_program(program: &Program) -> Result<Program, AllocError>
    ensures { IfOk result (λ copy. copy ≡ program.now) }
{
    program.clone()
}

/// A copy of a run's output.
fn copy_output(output: &Sequence<Value>) -> Result<Sequence<Value>, AllocError>
    ensures { IfOk result (λ copy. copy ≡ output.now) }
{
    output.clone()
}

/// A copy of a run's trace.
fn copy_trace(trace: &Sequence<TraceItem>) -> Result<Sequence<TraceItem>, AllocError>
    ensures { IfOk result (λ copy. copy ≡ trace.now) }
{
    trace.clone()
}

/// A copy of what was read.
fn copy_answers(answers: &ReadSet) -> Result<ReadSet, AllocError>
    ensures { IfOk result (λ copy. copy ≡ answers.now) }
{
    answers.clone()
}

/// A copy of what is written: these writes, each written anew.
fn copy_writes(alloc: Global, writes: &WriteBuffer) -> Result<WriteBuffer, AllocError>
    ensures { IfOk result (λ copy. copy ≡ latest_writes writes.now) }
{
    let mut copy = WriteBuffer::new(alloc);
    for place in 0..writes.len() {
        copy.write(writes.at(place).clone()?)?;
    }
    Ok(copy)
}

/// A copy of an attempt that is ready.
pub(crate) fn copy_of(alloc: Global, ready: &Ready) -> Result<Ready, AllocError>
    ensures { IfOk result (λ copy. copy ≡ ready.now) }
{
    let program = copy_program(&ready.program)?;
    let output = copy_output(&ready.output)?;
    let trace = copy_trace(&ready.trace)?;
    let answers = copy_answers(&ready.answers)?;
    let writes = copy_writes(alloc, &ready.writes)?;
    Ok(Ready {
        program,
        level: ready.level,
        answers,
        output,
        trace,
        writes,
    })
}
