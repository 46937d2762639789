//! The laws of commits. Each function does nothing: its contract is the law.
ghost use Rattle.stm_compile.specs.Laws.{CommitComesTo, CommitIsTheRunNow, TrueReadsAreNow, FailedComparesConflict, WrittenKeysAreUnmodified};
ghost use Rattle.stm_compile.specs.Laws.{AnswersOfOneRevision, TrueAnswersStay, AppliedIsEffect, FailedCommitRereads, CommitHasNoFloor};

/// The transaction of a run comes to the run's commit: `TooManyOps` exactly where it compares or writes too
/// much, else a failed compare is reported and nothing changes, else its latest writes are applied.
pub fn commit_comes_to()
    ensures { CommitComesTo }
{}

/// The run's commit comes to the same whatever revisions a compaction has dropped: it reads none by its number.
pub fn commit_has_no_floor()
    ensures { CommitHasNoFloor }
{}

/// At a comparing level, where no compare fails, a run on true answers is the run of its program on the
/// store as it is now, with its end, output, trace and writes.
pub fn commit_is_the_run_now()
    ensures { CommitIsTheRunNow }
{}

/// At a comparing level, where no compare fails, true answers say of their keys what these are now: value and
/// modification revision.
pub fn true_reads_are_now()
    ensures { TrueReadsAreNow }
{}

/// A failed compare is a conflict: of a key that was read and has been changed above the revision that its
/// answer shows, or, at serializable snapshot, of a written key that was changed above the first revision.
pub fn failed_compares_conflict()
    ensures { FailedComparesConflict }
{}

/// Where no compare of a commit at serializable snapshot fails, each key that it writes is absent, or what it
/// holds was put at the first revision or before.
pub fn written_keys_are_unmodified()
    ensures { WrittenKeysAreUnmodified }
{}

/// Where true answers all show one revision, the run on them is continued by the run on the state at that
/// revision; where it came to its end, it is that run. So also in an attempt that will fail.
pub fn answers_of_one_revision()
    ensures { AnswersOfOneRevision }
{}

/// True answers stay true as the history grows.
pub fn true_answers_stay()
    ensures { TrueAnswersStay }
{}

/// What a commit applies is the effect of its run's writes on the store as it is now.
pub fn applied_is_effect()
    ensures { AppliedIsEffect }
{}

/// A failed commit changes nothing. It reports the keys that were read as they are now, in the order of first
/// reads, where the next attempt can use them, and no others.
pub fn failed_commit_rereads()
    ensures { FailedCommitRereads }
{}
