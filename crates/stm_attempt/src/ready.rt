//! Attempts that are ready to commit.
use std::marker::Model;
use stm_compile::{ReadSet, WriteBuffer};
use stm_history::Sequence;
use stm_meaning::{TraceItem, Value};
use stm_program::{Level, Program};

/// An attempt that is ready to commit.
///
/// In every value of this type output, trace and writes are those of the program's run on the answers, and
/// that run is done.
#[derive(Debug, Drop)]
pub struct Ready {
    /// The program.
    pub program: Program,
    /// The level of the attempt.
    pub level: Level,
    /// What it read, in the order of first reads.
    pub answers: ReadSet,
    /// What it emitted, in order.
    pub output: Sequence<Value>,
    /// What each `get` and `rev` gave, in order.
    pub trace: Sequence<TraceItem>,
    /// The last write of each key, in the order of first writes.
    pub writes: WriteBuffer,
}

impl Model for Ready {
    ghost use Rattle.std.specs.Coded.{codes};
    ghost use Rattle.stm_program.specs.Coding.{coded_program};
    ghost use Rattle.stm_attempt.specs.ReadyRun.{ReadyRun, IsRunOnItsAnswers, ready_parts};

    ghost Value = { ReadyRun };

    ghost coded = { Prim.hlevel (codes, coded_program) };

    ghost view = { λ r. ready_parts r.program r.level r.answers r.output r.trace r.writes };

    ghost invariant = { λ r. IsRunOnItsAnswers (ready_parts r.program r.level r.answers r.output r.trace r.writes) };
}
