//! The laws of schedules. Each function does nothing: its contract is the law.
ghost use Rattle.stm_schedules.specs.Keeping.{FirstBadIsFirst, LongestIsAll, RulesEnd};
ghost use Rattle.stm_schedules.specs.Merges.{MergesKeep};
ghost use Rattle.stm_schedules.specs.Outcomes.{EndsAreKnown, OutcomesAreThose};
ghost use Rattle.stm_schedules.specs.Places.{MovesAreThose};
ghost use Rattle.stm_schedules.specs.Scenarios.{ScenariosAreSplit};
ghost use Rattle.stm_schedules.specs.Schedules.{SchedulesAreRuns};

/// The moves that can be made at a place are exactly the steps of the runners that have not ended, and the next event of the others where
/// one is left.
#[tactic(auto, using(crate::proofs::MoveLemmas::moves_are_those))]
pub fn moves_are_those()
    ensures { MovesAreThose }
{}

/// A schedule leads to the world of its events, run one after another; and a schedule from where another one leads can stand after it.
#[tactic(auto, using(crate::proofs::Runs::schedules_are_runs))]
pub fn schedules_are_runs()
    ensures { SchedulesAreRuns }
{}

/// The events up to the last start and those after it are the scenario, and no start stands after the last one. A scenario with the
/// events of a schedule in the place of those after its last start leads to the world that the schedule leads to. A scenario whose starts
/// are at another level is split at the same place.
#[tactic(auto, using(crate::proofs::Splits::scenarios_are_split))]
pub fn scenarios_are_split()
    ensures { ScenariosAreSplit }
{}

/// Whatever the rule is: where no first bad schedule of up to n moves is found, all of up to n moves keep it. One that is found does not
/// keep it, no shorter schedule breaks it, and none of its length that stands before it. Where some schedule of up to n moves breaks it,
/// one is found.
#[tactic(auto, using(crate::proofs::BadSchedules::first_bad_is_first))]
pub fn first_bad_is_first()
    ensures { FirstBadIsFirst }
{}

/// Where some schedule has n moves and none has one more, the longest has n; and where all schedules of up to the length of the longest keep
/// a rule, all schedules keep it.
#[tactic(auto, using(crate::proofs::Lengths::longest_is_all))]
pub fn longest_is_all()
    ensures { LongestIsAll }
{}

/// Every list of steps of runners of any numbers, merged with a prefix of the others' events in their order, leads to the world of a schedule
/// that is no longer. So a rule that all schedules of up to n moves keep is kept after all such lists of up to n events, and a rule that
/// all schedules keep is kept after all such lists. A step of a runner that has ended, or was never started, changes nothing.
#[tactic(auto, using(crate::proofs::Merging::merges_keep))]
pub fn merges_keep()
    ensures { MergesKeep }
{}

/// A rule that is run alone on the state of a world comes to an end.
#[tactic(auto, using(crate::proofs::BadSchedules::rules_end))]
pub fn rules_end()
    ensures { RulesEnd }
{}

/// The outcomes that are computed of up to n moves are exactly those of whole schedules of up to n moves; where no schedule is longer, of
/// all whole schedules.
#[tactic(auto, using(crate::proofs::Gathered::outcomes_are_those))]
pub fn outcomes_are_those()
    ensures { OutcomesAreThose }
{}

/// Along every schedule of a scenario the ends of exactly those runners are known that have ended, so that the outcome of a whole one has an
/// end of each runner.
#[tactic(auto, using(crate::proofs::KnownEnds::ends_are_known))]
pub fn ends_are_known()
    ensures { EndsAreKnown }
{}
