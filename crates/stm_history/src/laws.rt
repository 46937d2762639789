//! The laws of histories. Each function does nothing: its contract is the law.
ghost use Rattle.stm_history.specs.Laws.{SameModMeansSameState, OlderRevisionsStay, OneMoreRevision, LastRevisionIsNow, NumbersStaySmall};
ghost use Rattle.stm_history.specs.Laws.{CutShowsTheSame, CutKeepsKeysNow, CutKeepsNow, CutKeepsRevisions, CutGoesOn, CutAtTheOpening, CutTwice};

/// Older revisions don't change: one more revision leaves every key at the revisions before it.
#[tactic(auto, using(crate::proofs::HistoryLaws::older_revisions_stay))]
pub fn older_revisions_stay()
    ensures { OlderRevisionsStay }
{}

/// One more revision changes each key by its change, and leaves the others.
#[tactic(auto, using(crate::proofs::HistoryLaws::one_more_revision))]
pub fn one_more_revision()
    ensures { OneMoreRevision }
{}

/// A key at the last revision, or at one that has not come yet, is what it is now.
#[tactic(auto, using(crate::proofs::HistoryLaws::last_revision_is_now))]
pub fn last_revision_is_now()
    ensures { LastRevisionIsNow }
{}

/// Equal modification revisions of one key, at any two revisions, mean the same state (0 is absent).
///
/// So a compare of modification revisions is enough to know that the key is as it was.
#[tactic(auto, using(crate::proofs::HistoryLaws::same_mod_means_same_state))]
pub fn same_mod_means_same_state()
    ensures { SameModMeansSameState }
{}

/// The numbers of a present key are at most the numbers of the history, so they fit where those fit.
#[tactic(auto, using(crate::proofs::HistoryLaws::numbers_stay_small))]
pub fn numbers_stay_small()
    ensures { NumbersStaySmall }
{}

/// A history without its revisions up to a number, which it has reached, opens there with what each key is there: it shows
/// the keys at every revision from there on as they were, and goes on as it would have.
pub fn cut_shows_the_same()
    ensures keys { CutShowsTheSame }
    ensures keys_now { CutKeepsKeysNow }
    ensures now { CutKeepsNow }
    ensures revisions { CutKeepsRevisions }
    ensures goes_on { CutGoesOn }
{}

/// At its opening and below nothing of a history is cut off, and to cut it twice is to cut it at the higher number.
pub fn cut_twice()
    ensures opening { CutAtTheOpening }
    ensures twice { CutTwice }
{}
