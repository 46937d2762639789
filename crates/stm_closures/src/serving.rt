//! At which revision a transaction fetches, and what it takes of the answers that a failed commit read again.
ghost use Rattle.std.specs.Prelude.{◌≡◌, IfSome, IfOk, option_copied};
ghost use Rattle.stm_outcome.specs.Numbers.{ReadFits};
ghost use Rattle.stm_attempt.specs.Fetches.{base_of, at_of};
ghost use Rattle.stm_closures.specs.Transactions.{is_serving, served};

use std::alloc::AllocError;
use stm_attempt::{Level, ReadAnswer, ReadSet};

/// The base revision: the one that the first read shows, 0 where nothing was read.
fn base_revision(reads: &ReadSet) -> u64
    ensures { result ≡ base_of reads.now }
{
    if reads.len() == 0 {
        return 0;
    }
    reads.at(0).of_rev
}

/// The revision at which the next key is fetched, 0 for the current one.
pub(crate) fn fetch_revision(level: Level, reads: &ReadSet) -> u64
    ensures { result ≡ at_of level reads.now }
{
    if level.is_serializable() {
        base_revision(reads)
    } else {
        0
    }
}

/// Whether an answer that was read again serves.
fn is_serving(reads: &ReadSet, answer: &ReadAnswer) -> bool
    ensures { result ≡ is_serving reads.now answer.now }
{
    if reads.len() == 0 {
        return 0 < answer.of_rev;
    }
    answer.of_rev == base_revision(reads)
}

/// The answer for a key, among those that were read again, where it serves.
fn find_serving<'a>(reads: &ReadSet, again: &'a ReadSet, key: &str) -> Option<&'a ReadAnswer>
    ensures answer { option_copied result ≡ served reads.now again.now key.now }
    ensures in_range { IfSome (option_copied result) ReadFits }
{
    let answer = again.get(key)?;
    if is_serving(reads, answer) {
        Some(answer)
    } else {
        None
    }
}

/// A copy of an answer.
fn copy_of(answer: &ReadAnswer) -> Result<ReadAnswer, AllocError>
    ensures { IfOk result (λ copy. copy ≡ answer.now) }
{
    answer.clone()
}

/// A copy of the answer for a key, among those that were read again, where it serves.
pub(crate) fn copy_serving(
    reads: &ReadSet,
    again: &ReadSet,
    key: &str,
) -> Result<Option<ReadAnswer>, AllocError>
    ensures answer { IfOk result (λ taken. taken ≡ served reads.now again.now key.now) }
    ensures in_range { IfOk result (λ taken. IfSome taken ReadFits) }
{
    match find_serving(reads, again, key) {
        None => Ok(None),
        Some(answer) => {
            let copy = copy_of(answer)?;
            Ok(Some(copy))
        }
    }
}
