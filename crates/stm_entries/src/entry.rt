//! An entry of a store's log.
ghost use Rattle.std.specs.Prelude.{◌≡◌, IfOk};
ghost use Rattle.stm_entries.specs.declared.entry.Entry.TheVariants.{Program as ProgramEntry, Foreign as ForeignEntry};

use std::alloc::AllocError;
use stm_history::{ReadAnswer, Sequence};
use stm_meaning::{TraceItem, Value};
use stm_program::{Level, Program};
use stm_txn::Txn;

/// What changed a store. Moments are in whole seconds.
#[derive(Debug, Drop)]
pub enum Entry {
    /// A commit: the program and its level, at ReadCommitted the answers that it read (at the other levels
    /// there are none), its output and trace, and the store's revision after it.
    Program {
        program: Program,
        level: Level,
        answers: Sequence<ReadAnswer>,
        output: Sequence<Value>,
        trace: Sequence<TraceItem>,
        revision: u64,
    },
    /// A transaction of another client, one that changed something.
    Foreign {
        txn: Txn,
    },
    /// A grant of a lease: its id, its time to live in seconds, and the moment of the grant.
    Grant {
        id: u64,
        ttl: u64,
        at: u64,
    },
    /// A renewal of a lease, at a moment.
    Renew {
        id: u64,
        at: u64,
    },
    /// A revocation of a lease, with its keys.
    Revoke {
        id: u64,
    },
    /// The expiry of a lease that was due, with its keys.
    Expire {
        id: u64,
    },
}

/// A copy of the answers that a commit was made on.
fn copy_answers(answers: &Sequence<ReadAnswer>) -> Result<Sequence<ReadAnswer>, AllocError>
    ensures { IfOk result (λ copy. copy ≡ answers.now) }
{
    let copy = answers.clone()?;
    Ok(copy)
}

/// A copy of what a commit has emitted.
fn copy_output(output: &Sequence<Value>) -> Result<Sequence<Value>, AllocError>
    ensures { IfOk result (λ copy. copy ≡ output.now) }
{
    let copy = output.clone()?;
    Ok(copy)
}

/// A copy of what a commit has seen.
fn copy_trace(trace: &Sequence<TraceItem>) -> Result<Sequence<TraceItem>, AllocError>
    ensures { IfOk result (λ copy. copy ≡ trace.now) }
{
    let copy = trace.clone()?;
    Ok(copy)
}

/// The entry of a commit, of copies of these.
fn commit_of(
    program: &Program,
    level: Level,
    answers: &Sequence<ReadAnswer>,
    output: &Sequence<Value>,
    trace: &Sequence<TraceItem>,
    revision: u64,
) -> Result<Entry, AllocError>
    ensures { IfOk result (λ entry. entry ≡ ProgramEntry program.now level answers.now output.now trace.now revision) }
{
    let program = program.clone()?;
    let answers = copy_answers(answers)?;
    let output = copy_output(output)?;
    let trace = copy_trace(trace)?;
    Ok(Entry::Program {
        program,
        level,
        answers,
        output,
        trace,
        revision,
    })
}

/// The entry of a copy of this transaction.
fn foreign_of(txn: &Txn) -> Result<Entry, AllocError>
    ensures { IfOk result (λ entry. entry ≡ ForeignEntry txn.now) }
{
    let txn = txn.clone()?;
    Ok(Entry::Foreign { txn })
}

/// The copy is the same entry. It shares all of a program but its outermost statements and the keys of its list.
impl Clone for Entry {
    ghost is_clone = { λ entry copy. copy ≡ entry };

    fn clone(&self) -> Result<Entry, AllocError> {
        match self {
            Entry::Program {
                program,
                level,
                answers,
                output,
                trace,
                revision,
            } => commit_of(program, *level, answers, output, trace, *revision),
            Entry::Foreign { txn } => foreign_of(txn),
            Entry::Grant { id, ttl, at } => Ok(Entry::Grant {
                id: *id,
                ttl: *ttl,
                at: *at,
            }),
            Entry::Renew { id, at } => Ok(Entry::Renew { id: *id, at: *at }),
            Entry::Revoke { id } => Ok(Entry::Revoke { id: *id }),
            Entry::Expire { id } => Ok(Entry::Expire { id: *id }),
        }
    }
}
