//! The laws of checks. Each function does nothing: its contract is the law.
ghost use Rattle.stm_check.specs.Laws.{JudgedAlways, JudgedOnce, StoreIsTheReplay, YesIsTheReplay};

/// The store after lines is the replay of all the entries that they report, and these are counted.
#[tactic(auto, using(crate::proofs::Replaying::store_is_the_replay))]
pub fn store_is_the_replay()
    ensures { StoreIsTheReplay }
{}

/// A check has at most one answer for a report: one of which no line is wrong has no first wrong line, and no report has two first wrong lines,
/// or one with two causes.
pub fn judged_once()
    ensures { JudgedOnce }
{}

/// A check has an answer for each report of each scenario: no line is wrong, or there is a first wrong line, with its cause.
pub fn judged_always()
    ensures { JudgedAlways }
{}

/// What a report shows of which no line is wrong: the entries that its lines report are legal, each at its point, and the
/// store that they lead to from an empty one is what its key, lease and end lines show.
pub fn yes_is_the_replay()
    ensures { YesIsTheReplay }
{}
