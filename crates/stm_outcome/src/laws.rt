//! The laws of what transactions come to. Each function does nothing: its contract is the law.
ghost use Rattle.stm_outcome.specs.Effect.{BranchIsEffect};
ghost use Rattle.stm_outcome.specs.Laws.{WritesApply, BranchApplies, FailedCompareReads, ReadsChangeNothing};
ghost use Rattle.stm_outcome.specs.Laws.{NumberAloneIsWrong, ModCompares, NoneFailed, FailedHasItsPlace, HistoryGrows, WiderTermsTake, LookUpIsTheState};

/// What a branch of puts and deletes of distinct keys changes is the effect of these writes.
pub fn branch_is_effect()
    ensures { BranchIsEffect }
{}

/// Writes of distinct keys, where nothing of the whole transaction is wrong and every compare holds:
/// `LeaseNotFound` exactly where a put names a lease that is not live, else `RevisionsUsedUp` exactly where
/// something changes at the highest revision, else the writes without deletes of absent keys, as one revision.
pub fn writes_apply()
    ensures { WritesApply }
{}

/// A branch of writes of distinct keys, with nothing compared, is refused and changes what such a transaction does.
pub fn branch_applies()
    ensures { BranchApplies }
{}

/// Where a compare fails and the failure list reads, the compare's place, its key's modification revision
/// and the reads are reported, and nothing changes.
pub fn failed_compare_reads()
    ensures { FailedCompareReads }
{}

/// A transaction of reads alone answers each key at its revision, and changes nothing.
pub fn reads_change_nothing()
    ensures { ReadsChangeNothing }
{}

/// Of writes of distinct keys and reads, whose keys are not empty, only the number can be wrong as a whole.
pub fn number_alone_is_wrong()
    ensures { NumberAloneIsWrong }
{}

/// A compare of a modification revision holds exactly where the numbers are equal, or the key's is below.
pub fn mod_compares()
    ensures { ModCompares }
{}

/// No compare failed exactly where all hold.
pub fn none_failed()
    ensures { NoneFailed }
{}

/// The place of a failed compare is below their number; the compare there does not hold.
pub fn failed_has_its_place()
    ensures { FailedHasItsPlace }
{}

/// Whatever a transaction comes to, its history is the old one with some changes of distinct keys.
pub fn history_grows()
    ensures { HistoryGrows }
{}

/// A transaction that is taken at a floor and a limit is taken where there is no floor and a limit that is as high, with the same answer
/// and history.
pub fn wider_terms_take()
    ensures { WiderTermsTake }
{}

/// Where no two operations of a branch clash, what a key is by now is what a look-up through the changes so
/// far finds.
pub fn look_up_is_the_state()
    ensures { LookUpIsTheState }
{}
