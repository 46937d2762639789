//! The list of a program, which enters an attempt before the first statement.
ghost use Rattle.std.specs.Prelude.{◌≡◌, ◌++◌, true, false, map, option_map, string_bytes, IfOk};
ghost use Rattle.stm_history.specs.declared.key_state.ReadAnswer.{ReadAnswer as Answer};
ghost use Rattle.stm_program.specs.Limits.{has_repeat};
ghost use Rattle.stm_attempt.specs.Known.{known_of};
ghost use Rattle.stm_attempt.specs.Entering.{is_due, answers_of_all, gone_on};
ghost use Rattle.stm_attempt.specs.Progress.{HasCome, Extends};

use crate::progress::{Progress, put};
use crate::serving::copy_of;
use std::alloc::{AllocError, Global};
use std::mem;
use stm_compile::ReadSet;
use stm_program::Program;

/// Whether a list of these keys is not among the reads yet.
fn is_due(keys: &[String], reads: &ReadSet) -> bool
    ensures { result ≡ is_due (map string_bytes keys.now) reads.now }
{
    !keys.is_empty() && reads.len() == 0
}

/// The prefetched answers of these keys, after those that were taken. `None` where one of the keys has none.
fn take_each(
    prefetched: &ReadSet,
    keys: &[String],
    taken: ReadSet,
) -> Result<Option<ReadSet>, AllocError>
    requires once { has_repeat (map (λ (a : Answer). a.key) taken ++ map string_bytes keys.now) ≡ false }
    ensures { IfOk result (λ found. found ≡ option_map (λ more. taken ++ more) (answers_of_all (map string_bytes keys.now) prefetched.now)) }
{
    let mut taken = taken;
    match keys {
        [] => Ok(Some(taken)),
        [first, rest @ ..] => match prefetched.get(first.as_str()) {
            None => Ok(None),
            Some(answer) => {
                taken.add(copy_of(answer)?)?;
                take_each(prefetched, rest, taken)
            }
        },
    }
}

/// The prefetched answers of a program's list. `None` where a key of it has none. Out of memory is the only refusal.
fn take_list(
    alloc: Global,
    program: &Program,
    prefetched: &ReadSet,
) -> Result<Option<ReadSet>, AllocError>
    ensures { IfOk result (λ found. found ≡ answers_of_all program.now.prefetch prefetched.now) }
{
    take_each(prefetched, program.prefetch(), ReadSet::new(alloc))
}

/// These reads stand in the place of none, and the program at its start.
fn take_in(reads: &mut ReadSet, answers: ReadSet, progress: &mut Progress)
    ensures reads { reads.new ≡ answers }
    ensures progress { progress.new ≡ Progress.Fresh }
{
    drop(mem::replace(reads, answers));
    put(progress, Progress::Fresh);
}

/// Takes the list of a program where it is due and all of it was prefetched. Returns whether the list is due still.
///
/// Out of memory is the only refusal, and leaves all as it was.
pub(crate) fn enter(
    alloc: Global,
    program: &Program,
    prefetched: &ReadSet,
    reads: &mut ReadSet,
    progress: &mut Progress,
) -> Result<bool, AllocError>
    requires { HasCome program.now reads.old progress.old }
    ensures come { HasCome program.now reads.new progress.new }
    ensures gone { gone_on program.now (known_of reads.new prefetched.now) ≡ gone_on program.now (known_of reads.old prefetched.now) }
    ensures extends { Extends reads.old reads.new }
    ensures due { IfOk result (λ due. is_due program.now.prefetch reads.new ≡ due) }
    ensures stays { IfOk result (λ due. due ≡ true → gone_on program.now (known_of reads.old prefetched.now) ≡ reads.new) }
{
    if !is_due(program.prefetch(), reads) {
        return Ok(false);
    }
    match take_list(alloc, program, prefetched)? {
        None => Ok(true),
        Some(answers) => {
            take_in(reads, answers, progress);
            Ok(false)
        }
    }
}
