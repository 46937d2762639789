//! The transaction that commits an attempt.
ghost use Rattle.std.specs.Prelude.{◌≡◌, ◌≤◌, ◌++◌, ◌∷◌, [], map, IfOk, OnOk};
ghost use Rattle.stm_history.specs.declared.key_state.ReadAnswer.{ReadAnswer as Answer};
ghost use Rattle.stm_history.specs.declared.revisions.TheConstants.{HIGHEST_NUMBER};
ghost use Rattle.stm_outcome.specs.Commits.{read_now};
ghost use Rattle.stm_outcome.specs.Effect.{op_of};
ghost use Rattle.stm_compile.specs.CommitTxn.{first_carried, is_as_read, is_unmodified, compares_of, reread_keys, commit_of};

use crate::read_set::ReadSet;
use crate::write_buffer::WriteBuffer;
use std::alloc::{AllocError, Global};
use stm_history::{ReadAnswer, Text, mod_rev_of};
use stm_outcome::{Compare, Op, Order, ShortList, Target, Txn};
use stm_program::{Level, Write};

/// "The key is as it was read", an absent one too: by its modification revision.
fn as_read(answer: &ReadAnswer) -> Result<Compare, AllocError>
    ensures { IfOk result (λ compare. compare ≡ is_as_read answer.now) }
{
    let key = answer.key.clone()?;
    Ok(Compare {
        key,
        target: Target::Mod(mod_rev_of(&answer.kv)),
        order: Order::Equal,
    })
}

/// "The written key was not modified above `first`."
fn unmodified(alloc: Global, first: u64, write: &Write) -> Result<Compare, AllocError>
    requires { first ≤ HIGHEST_NUMBER }
    ensures { IfOk result (λ compare. compare ≡ is_unmodified first write.now) }
{
    let key = Text::copy_of(alloc, write.key())?;
    Ok(Compare {
        key,
        target: Target::Mod(first + 1),
        order: Order::Less,
    })
}

/// Adds the compare of a key that was read.
fn push_as_read(compares: &mut Vec<Compare>, answer: &ReadAnswer) -> Result<(), AllocError>
    ensures { OnOk result (compares.new.items ≡ compares.old.items ++ is_as_read answer.now ∷ []) }
{
    let compare = as_read(answer)?;
    compares.push(compare)?;
    Ok(())
}

/// The compares of the keys that were read.
fn read_compares(alloc: Global, answers: &[ReadAnswer]) -> Result<Vec<Compare>, AllocError>
    ensures { IfOk result (λ compares. compares.items ≡ map is_as_read answers.now) }
{
    let mut compares = Vec::with_capacity(alloc, answers.len())?;
    for answer in answers {
        push_as_read(&mut compares, answer)?;
    }
    Ok(compares)
}

/// Adds the compare of a key that was written.
fn push_unmodified(
    alloc: Global,
    compares: &mut Vec<Compare>,
    first: u64,
    write: &Write,
) -> Result<(), AllocError>
    requires { first ≤ HIGHEST_NUMBER }
    ensures { OnOk result (compares.new.items ≡ compares.old.items ++ is_unmodified first write.now ∷ []) }
{
    let compare = unmodified(alloc, first, write)?;
    compares.push(compare)?;
    Ok(())
}

/// The compares of the keys that were written.
fn write_compares(alloc: Global, first: u64, writes: &[Write]) -> Result<Vec<Compare>, AllocError>
    requires { first ≤ HIGHEST_NUMBER }
    ensures { IfOk result (λ compares. compares.items ≡ map (is_unmodified first) writes.now) }
{
    let mut compares = Vec::with_capacity(alloc, writes.len())?;
    for write in writes {
        push_unmodified(alloc, &mut compares, first, write)?;
    }
    Ok(compares)
}

/// The compares of the keys that were read, and those of the keys that were written.
fn all_compares(
    alloc: Global,
    reads: &ReadSet,
    writes: &WriteBuffer,
) -> Result<Vec<Compare>, AllocError>
    ensures { IfOk result (λ compares. compares.items ≡ map is_as_read reads.now ++ map (is_unmodified (first_carried reads.now)) writes.now) }
{
    let mut compares = read_compares(alloc, reads.as_slice())?;
    let mut written = write_compares(alloc, reads.first_carried(), writes.as_slice())?;
    compares.append(&mut written)?;
    Ok(compares)
}

/// What a commit compares, at each level.
fn compares(
    alloc: Global,
    level: Level,
    reads: &ReadSet,
    writes: &WriteBuffer,
) -> Result<Vec<Compare>, AllocError>
    ensures { IfOk result (λ compares. compares.items ≡ compares_of level reads.now writes.now) }
{
    match level {
        Level::SerializableSnapshot => all_compares(alloc, reads, writes),
        Level::Serializable => read_compares(alloc, reads.as_slice()),
        Level::RepeatableReads => read_compares(alloc, reads.as_slice()),
        Level::ReadCommitted => Ok(Vec::new(alloc)),
    }
}

/// A write, as an operation.
fn operation(write: &Write) -> Result<Op, AllocError>
    ensures { IfOk result (λ op. op ≡ op_of write.now) }
{
    match write {
        Write::Put { key, value, lease } => {
            let key = key.clone()?;
            let value = value.clone()?;
            Ok(Op::Put {
                key,
                value,
                lease: *lease,
            })
        }
        Write::Del { key } => {
            let key = key.clone()?;
            Ok(Op::Del { key })
        }
    }
}

/// Adds a write, as an operation.
fn push_operation(ops: &mut Vec<Op>, write: &Write) -> Result<(), AllocError>
    ensures { OnOk result (ops.new.items ≡ ops.old.items ++ op_of write.now ∷ []) }
{
    let op = operation(write)?;
    ops.push(op)?;
    Ok(())
}

/// The writes, as operations.
fn operations(alloc: Global, writes: &[Write]) -> Result<Vec<Op>, AllocError>
    ensures { IfOk result (λ ops. ops.items ≡ map op_of writes.now) }
{
    let mut ops = Vec::with_capacity(alloc, writes.len())?;
    for write in writes {
        push_operation(&mut ops, write)?;
    }
    Ok(ops)
}

/// Adds a read of a key that was read, as it is when the commit has failed.
fn push_again(ops: &mut Vec<Op>, answer: &ReadAnswer) -> Result<(), AllocError>
    ensures { OnOk result (ops.new.items ≡ ops.old.items ++ read_now answer.now.key ∷ []) }
{
    let key = answer.key.clone()?;
    ops.push(Op::Get { key, rev: 0 })?;
    Ok(())
}

/// Reads of the keys that were read, as they are when the commit has failed.
fn reads_again(alloc: Global, answers: &[ReadAnswer]) -> Result<Vec<Op>, AllocError>
    ensures { IfOk result (λ ops. ops.items ≡ map read_now (map (λ (a : Answer). a.key) answers.now)) }
{
    let mut ops = Vec::with_capacity(alloc, answers.len())?;
    for answer in answers {
        push_again(&mut ops, answer)?;
    }
    Ok(ops)
}

/// What a failed commit reads again, at each level.
fn rereads(alloc: Global, level: Level, reads: &ReadSet) -> Result<Vec<Op>, AllocError>
    ensures { IfOk result (λ ops. ops.items ≡ map read_now (reread_keys level reads.now)) }
{
    if level.is_serializable() {
        reads_again(alloc, reads.as_slice())
    } else {
        Ok(Vec::new(alloc))
    }
}

/// The transaction that commits what an attempt has read and written, at a level.
///
/// It compares, in this order: each key read, whose modification revision has to be the one that was read
/// (0 where it was absent); and, at `SerializableSnapshot`, each key written, which may not be modified
/// above the least revision that the answers carry. At `ReadCommitted` it compares nothing. Its success list
/// has the writes in the order of first writes. At the two serializable levels its failure list reads each
/// key of the read set again; at the other two it is empty. (`clientv3/concurrency`, "STM".)
///
/// Out of memory is the only refusal.
pub fn compile(
    alloc: Global,
    level: Level,
    reads: &ReadSet,
    writes: &WriteBuffer,
) -> Result<Txn, AllocError>
    ensures { IfOk result (λ txn. txn ≡ commit_of level reads.now writes.now) }
{
    let compares = compares(alloc, level, reads, writes)?;
    let success = operations(alloc, writes.as_slice())?;
    let failure = rereads(alloc, level, reads)?;
    Ok(Txn {
        compares: ShortList::of(compares),
        success: ShortList::of(success),
        failure: ShortList::of(failure),
    })
}
