//! The commit of a transaction to a hall.
ghost use Rattle.std.specs.Prelude.{◌≡◌, true, All};
ghost use Rattle.stm_hall.specs.Laws.{GoesOn};
ghost use Rattle.stm_hall.specs.Showing.{IsShown};
ghost use Rattle.stm_closures.specs.Outcomes.{CommitReturns};
ghost use Rattle.stm_closures.specs.Committing.{IsCommittedInHall};

use crate::rereading::read_all_again;
use crate::store_access::CommitOutcome;
use std::alloc::Global;
use stm_attempt::{Level, ReadSet, WriteBuffer, compile};
use stm_hall::{Hall, ReadAnswer, Refusal};

/// Whether the hall's history shows all these answers.
fn are_shown(hall: &Hall, answers: &[ReadAnswer]) -> bool
    ensures { result ≡ true → All (IsShown hall.now.standing.history) answers.now }
{
    match answers {
        [] => true,
        [first, rest @ ..] => hall.shows(first) && are_shown(hall, rest),
    }
}

/// Commits what was read and written, by one transaction of another client's kind.
pub(crate) fn commit_to_hall(
    alloc: Global,
    hall: &mut Hall,
    level: Level,
    reads: &ReadSet,
    writes: &WriteBuffer,
) -> Result<CommitOutcome, Refusal>
    ensures outcome { CommitReturns (IsCommittedInHall hall.old level reads.now writes.now hall.new) (hall.new ≡ hall.old) result }
    ensures goes_on { GoesOn hall.old hall.new }
{
    if !are_shown(hall, reads.as_slice()) {
        return Ok(CommitOutcome::Exchanged);
    }
    let txn = compile(alloc, level, reads, writes)?;
    let answer = hall.foreign(&txn)?;
    if answer.failed.is_none() {
        return Ok(CommitOutcome::Committed);
    }
    let again = read_all_again(alloc, hall, level, reads);
    Ok(CommitOutcome::Conflict { again })
}
