//! The laws. Each function does nothing: its contract is the law.
ghost use Rattle.stm_alike.specs.Levelled.{LevelledAttemptsAreSame, UndatedAttemptsAreSame};
ghost use Rattle.stm_alike.specs.Seen.{AlikeWorldsAreSame};

/// Of the revisions that the answers of an attempt carry only the least is ever used: an attempt that has read the same, and of which the
/// least is the same, goes on in the same way and commits the same.
#[tactic(auto, using(crate::proofs::Levelling::levelled_attempts_are_same))]
pub fn levelled_attempts_are_same()
    ensures { LevelledAttemptsAreSame }
{}

/// An attempt that reads each key as it is now makes no use of the revisions that its answers show and carry: one that has read the same states of keys goes on in
/// the same way, commits the same, and reports the same of a conflict.
#[tactic(auto, using(crate::proofs::Undating::undated_attempts_are_same))]
pub fn undated_attempts_are_same()
    ensures { UndatedAttemptsAreSame }
{}

/// What the entries are, who watches, and which revisions the answers of an attempt show and carry, where its level makes no use of them, makes no difference to
/// what a world comes to: after the same event alike worlds are alike, and they reply the same to every event but a call about watchers, up to the revisions that
/// the reads of a commit at `ReadCommitted` show.
#[tactic(auto, using(crate::proofs::SeenSteps::alike_worlds_are_same))]
pub fn alike_worlds_are_same()
    ensures { AlikeWorldsAreSame }
{}
