//! What an attempt takes of the answers that were prefetched for it.
ghost use Rattle.std.specs.Prelude.{◌≡◌, IfOk, IfSome, option_copied};
ghost use Rattle.stm_outcome.specs.Numbers.{ReadFits};
ghost use Rattle.stm_compile.specs.Answers.{answer_in};
ghost use Rattle.stm_attempt.specs.Known.{is_of_base, serving, HaveDistinctKeys};
ghost use Rattle.stm_attempt.specs.Settled.{answer_for};
ghost use Rattle.stm_attempt.specs.Fetches.{base_of, at_of};

use std::alloc::AllocError;
use stm_compile::ReadSet;
use stm_history::{ReadAnswer, Text};
use stm_program::Level;

/// The base revision of these reads: the one that the first of them shows, 0 where there is none.
fn base_revision(reads: &ReadSet) -> u64
    ensures { result ≡ base_of reads.now }
{
    if reads.len() == 0 {
        return 0;
    }
    reads.at(0).of_rev
}

/// The revision at which the next key is to be fetched, 0 for the current one.
pub(crate) fn fetch_revision(level: Level, reads: &ReadSet) -> u64
    ensures { result ≡ at_of level reads.now }
{
    if level.is_serializable() {
        base_revision(reads)
    } else {
        0
    }
}

/// Whether a prefetched answer is of the base revision. Before a first read each one is.
fn is_of_base(reads: &ReadSet, answer: &ReadAnswer) -> bool
    ensures { result ≡ is_of_base reads.now answer.now }
{
    reads.len() == 0 || answer.of_rev == base_revision(reads)
}

/// The prefetched answer that serves a key.
fn find_serving<'a>(prefetched: &'a ReadSet, reads: &ReadSet, key: &Text) -> Option<&'a ReadAnswer>
    requires { HaveDistinctKeys prefetched.now }
    ensures answer { option_copied result ≡ answer_in key.now (serving reads.now prefetched.now) }
    ensures in_range { IfSome (option_copied result) ReadFits }
{
    let answer = prefetched.get(key.as_str())?;
    if is_of_base(reads, answer) {
        Some(answer)
    } else {
        None
    }
}

/// A copy of an answer.
pub(crate) fn copy_of(answer: &ReadAnswer) -> Result<ReadAnswer, AllocError>
    ensures { IfOk result (λ copy. copy ≡ answer.now) }
{
    answer.clone()
}

/// A copy of the prefetched answer that serves a key.
fn copy_serving(
    prefetched: &ReadSet,
    reads: &ReadSet,
    key: &Text,
) -> Result<Option<ReadAnswer>, AllocError>
    requires { HaveDistinctKeys prefetched.now }
    ensures answer { IfOk result (λ taken. taken ≡ answer_in key.now (serving reads.now prefetched.now)) }
    ensures in_range { IfOk result (λ taken. IfSome taken ReadFits) }
{
    match find_serving(prefetched, reads, key) {
        None => Ok(None),
        Some(answer) => {
            let copy = copy_of(answer)?;
            Ok(Some(copy))
        }
    }
}

/// A copy of the prefetched answer that serves a wanted key, where one is wanted.
pub(crate) fn take_serving(
    prefetched: &ReadSet,
    reads: &ReadSet,
    wanted: Option<&Text>,
) -> Result<Option<ReadAnswer>, AllocError>
    requires { HaveDistinctKeys prefetched.now }
    ensures answer { IfOk result (λ taken. taken ≡ answer_for (option_copied wanted.entry) (serving reads.now prefetched.now)) }
    ensures in_range { IfOk result (λ taken. IfSome taken ReadFits) }
{
    match wanted {
        None => Ok(None),
        Some(key) => copy_serving(prefetched, reads, key),
    }
}
