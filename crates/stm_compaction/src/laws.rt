//! The laws of stores that have dropped their revisions below the floor. Each function does nothing: its contract is the law.
ghost use Rattle.stm_compaction.specs.Laws.{KeptShowsTheSame, KeptTransacts, KeptWrites, KeptFetches, KeptListFetches, KeptCommits};
ghost use Rattle.stm_compaction.specs.Laws.{KeptGrants, KeptRenews, KeptRevokes, KeptExpires, KeptAdvances, KeptAdvanceComes, KeptAdvanceIsCutShort};
ghost use Rattle.stm_compaction.specs.Laws.{KeptWatches, KeptPolls, KeptPollRefused, KeptCancels, KeptCompacts};

/// A store without its revisions below the floor has the counter of the whole one, its keys now, those that are present and
/// those of each lease, and from the floor on its keys at each revision, and its events.
pub fn kept_shows_the_same()
    ensures { KeptShowsTheSame }
{}

/// A transaction, and writes with nothing compared, come to the same.
pub fn kept_transacts()
    ensures transacted { KeptTransacts }
    ensures written { KeptWrites }
{}

/// What a program asks of a store comes to the same: the fetch of a key, that of a list of keys, and the commit.
pub fn kept_serves_runs()
    ensures fetched { KeptFetches }
    ensures listed { KeptListFetches }
    ensures sent { KeptCommits }
{}

/// A grant, a renewal and a revocation of a lease come to the same, and so do expiries, one after another, and an advance.
pub fn kept_leases()
    ensures granted { KeptGrants }
    ensures renewed { KeptRenews }
    ensures revoked { KeptRevokes }
    ensures expired { KeptExpires }
    ensures advanced { KeptAdvances }
{}

/// What an advance has come to, whole or cut short, is what that of the whole store has come to without the revisions below
/// the floor.
pub fn kept_advances()
    ensures comes { KeptAdvanceComes }
    ensures cut_short { KeptAdvanceIsCutShort }
{}

/// A watch, a poll and a cancellation come to the same, where no event below the floor is pending for a watcher that is not
/// lost.
pub fn kept_watches()
    ensures watched { KeptWatches }
    ensures polled { KeptPolls }
    ensures refused { KeptPollRefused }
    ensures cancelled { KeptCancels }
{}

/// A compaction comes to what a higher floor of the whole store comes to, without the revisions below it. So a store that is
/// compacted again and again stands for the whole one.
pub fn kept_compacts()
    ensures { KeptCompacts }
{}
