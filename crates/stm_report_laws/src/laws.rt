//! Laws of reports. Each function does nothing: its contract is the law.
ghost use Rattle.stm_report_laws.specs.Laws.{ChecksSayYes, EntriesAreReported, NeverNoToAScript, OneReport, ReportsAreOfRightRuns};
ghost use Rattle.stm_report_laws.specs.Laws.{ScriptsAreReadAsRight, ScriptsPassChecks, YesToAScript};
ghost use Rattle.stm_report_laws.specs.ReadBack.{ReportsAreReadBack};

/// The report that `script` writes of the scenario that the bytes of its input spell is that of replies and
/// of a world of which the headline holds. A world and its replies have one report.
///
/// So each event of the scenario has its reply in it, and nothing else has; each reply is right after the lines
/// before it, by what the events and replies alone say; its key and lease lines are those of the store that
/// they lead to; and the entries that it counts replay to that store, each legal at its point.
#[tactic(auto, using(crate::proofs::RightRuns::reports_are_of_right_runs))]
pub fn reports_are_of_right_runs()
    ensures runs { ReportsAreOfRightRuns }
    ensures one { OneReport }
{}

/// Where the headline holds of a run, a check says yes to its report: no line of it is wrong. The entries that a check reads off it are
/// those of its world, which `World::history` gives: each is the same, in the same order.
#[tactic(auto, using(crate::proofs::Checks::checks_say_yes, crate::proofs::Checks::entries_are_reported))]
pub fn checks_say_yes()
    ensures yes { ChecksSayYes }
    ensures entries { EntriesAreReported }
{}

/// A check of a scenario and of what `script` writes of it, where that is at most 16777216 bytes long, says yes, unless an
/// allocation or a device failed. However long it is, where it is read as a report, a check never says no to it.
///
/// It is the text of a report that a check says yes to, and is read as one where it is not too long: the text of a report is read
/// as that report where it is in UTF-8 and no longer, its numbers are of 64 bits with a sign, and no deletion of one key deletes more than one.
#[tactic(auto, using(crate::proofs::Checks::scripts_pass_checks, crate::proofs::ReadBack::reports_are_read_back, crate::proofs::ScriptsRead::scripts_are_read_as_right, crate::proofs::ScriptsRead::never_no_to_a_script))]
pub fn yes_to_a_script()
    ensures passes { ScriptsPassChecks }
    ensures read_back { ReportsAreReadBack }
    ensures read_as_right { ScriptsAreReadAsRight }
    ensures never_no { NeverNoToAScript }
    ensures yes { YesToAScript }
{}
