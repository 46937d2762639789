//! The command `explore` over devices.
ghost use Rattle.std.specs.Prelude.{◌≡◌, ◌≤◌, ◌+◌, false};
ghost use Rattle.stm_devices.specs.declared.transfer.TheConstants.{MOST_READ};
ghost use Rattle.stm_exploring.specs.Command.{Explores, ExploresFor, ExploresLevels, GoesThrough, ReadsRule};

use crate::audience::Audience;
use crate::explaining::{
    report_program_fault, report_rule_fault, report_search_fault, report_verdict,
    searched_explanation,
};
use crate::exploring::{explore_sources, search_for};
use crate::leveled::search_at_levels;
use crate::messages::{status_of, write};
use crate::outcomes::outcomes_of_source;
use crate::question::Question;
use crate::reading::program_of;
use crate::rules::Rule;
use std::alloc::Global;
use stm_devices::{Sink, Source};
use stm_explain::KeptSource;
use stm_explore::{Budget, Wait};
use stm_faulted_runs::said_of;
use stm_program::{Level, Program};

/// Looks through the interleavings of the scenario of `scenario` for one after which the program of `keeps`, run alone on the state, does not
/// come to its last statement, and writes to `out` what that came to.
///
/// `["always",LENGTH]` and status 0: after every schedule it does, and the longest has LENGTH moves. `["broken",LENGTH,END]` and status 1:
/// it does not after the schedule of LENGTH moves that stands, as a scenario, on a second line, and does after each that is shorter, or that
/// is as long and stands before it. `["open",LENGTH]` and status 4: as many moves were made as `budget` had left, before that was decided,
/// and after every schedule of at most LENGTH moves it does. The observer of `budget` is notified of how far the search is, and that it has ended
/// before anything is written.
///
/// Of the schedules those alone are looked at in which the runners wait for others, as `waits` says. The steps of the scenario are left out. Each
/// start is taken at `level`, where one is named. The scenario is read and judged first, then the program, and then whether the scenario has the
/// runners of the waits. Status 2 is for a bad scenario, a bad program and a bad wait, 3 for a failed allocation and for a failed device other than
/// `err`: then nothing was written, but for a front where `out` has failed. On `err` it says what went wrong, and takes no memory for it:
/// `stmrun: bad scenario at PLACE: CAUSE`, `stmrun: bad program at PLACE: CAUSE`, `stmrun: bad wait RUNNER:FIRST: Range`, `stmrun: out of memory` or
/// `stmrun: device fault`, whole where `err` then has not failed. That `err` fails changes no status. None of the devices has failed before.
/// `scenario` and `keeps` are read at most 16777217 times each.
///
/// Where faults are to be explained, there stands after what is said of a bad input its explanation, as a line `NAME:LINE:COLUMN: WORDS`, and after what
/// is printed of a rule that was broken by a fault a line of that form; or nothing where an allocation failed for these.
pub fn explore_to<S: Source, R: Source, W: Sink, E: Sink, O: Audience>(
    alloc: Global,
    explain: bool,
    scenario: &mut KeptSource<'_, S>,
    keeps: &mut KeptSource<'_, R>,
    waits: &[Wait],
    level: Option<Level>,
    budget: &mut Budget<O>,
    out: &mut W,
    err: &mut E,
) -> u8
    requires scenario_works { S.failed scenario.old.source ≡ false }
    requires keeps_works { R.failed keeps.old.source ≡ false }
    requires out_works { W.failed out.old ≡ false }
    requires err_works { E.failed err.old ≡ false }
    ensures ends { Explores explain waits.now level (record { name = scenario.new.name.now; text = scenario.new.bytes.items })
        (record { name = keeps.new.name.now; text = keeps.new.bytes.items }) (record {
          scenario = S.left scenario.old.source;
          keeps = R.left keeps.old.source;
          scenario_failed = S.failed scenario.new.source;
          keeps_failed = R.failed keeps.new.source;
        }) (record { before = W.held out.old; after = W.held out.new; failed = W.failed out.new })
        (record { before = E.held err.old; after = E.held err.new; failed = E.failed err.new }) result }
    ensures scenario_bounded { S.reads scenario.new.source ≤ S.reads scenario.old.source + MOST_READ }
    ensures keeps_bounded { R.reads keeps.new.source ≤ R.reads keeps.old.source + MOST_READ }
{
    let searched = explore_sources(alloc, scenario, keeps, waits, level, budget);
    let explained = searched_explanation(alloc, explain, keeps, &searched);
    match write(out, searched) {
        Ok(verdict) => report_verdict(err, explain, verdict, said_of(&explained)),
        Err(fault) => report_rule_fault(alloc, explain, scenario, keeps, &fault, err),
    }
}

/// Reads the program of a rule from its source to the end, or gives a status.
///
/// Status 2 is for a bad program, 3 for a failed allocation and for a failed source. On `err` it says what went wrong, and takes no memory for it, as
/// `explore_to` does. Neither device has failed before. The source is read at most 16777217 times.
pub fn read_rule_to<R: Source, E: Sink>(
    alloc: Global,
    explain: bool,
    rule: &mut KeptSource<'_, R>,
    err: &mut E,
) -> Result<Program, u8>
    requires rule_works { R.failed rule.old.source ≡ false }
    requires err_works { E.failed err.old ≡ false }
    ensures reads { ReadsRule explain (record { name = rule.new.name.now; text = rule.new.bytes.items }) (R.left rule.old.source) (R.failed rule.new.source)
        (record { before = E.held err.old; after = E.held err.new; failed = E.failed err.new }) result }
    ensures bounded { R.reads rule.new.source ≤ R.reads rule.old.source + MOST_READ }
{
    match program_of(alloc, rule) {
        Ok(program) => Ok(program),
        Err(fault) => Err(report_program_fault(alloc, explain, rule, &fault, err)),
    }
}

/// Looks through the interleavings of the scenario of `scenario`, for each of these rules in their order, and writes to `out` what that came to.
///
/// There is a line for each rule, as `explore_to` writes it, with its name as a last element, if it has one. Where a rule is broken, a last line has the
/// scenario with the schedule that breaks the first one that is. For each rule as many moves may be made as `budget` has left. Status 1 is for a rule
/// that is broken, else 4 for one of which that was not decided, else 0.
///
/// All else is as with `explore_to`, which reads the rule from a device.
pub fn explore_rules_to<S: Source, W: Sink, E: Sink, O: Audience>(
    alloc: Global,
    explain: bool,
    scenario: &mut KeptSource<'_, S>,
    rules: &[Rule],
    waits: &[Wait],
    level: Option<Level>,
    budget: &mut Budget<O>,
    out: &mut W,
    err: &mut E,
) -> u8
    requires scenario_works { S.failed scenario.old.source ≡ false }
    requires out_works { W.failed out.old ≡ false }
    requires err_works { E.failed err.old ≡ false }
    ensures ends { ExploresFor explain waits.now level rules.now (record { name = scenario.new.name.now; text = scenario.new.bytes.items }) (S.left scenario.old.source) (S.failed scenario.new.source)
        (record { before = W.held out.old; after = W.held out.new; failed = W.failed out.new })
        (record { before = E.held err.old; after = E.held err.new; failed = E.failed err.new }) result }
    ensures bounded { S.reads scenario.new.source ≤ S.reads scenario.old.source + MOST_READ }
{
    let searched = search_for(alloc, scenario, rules, waits, level, budget);
    match write(out, searched) {
        Ok(verdict) => status_of(verdict),
        Err(fault) => report_search_fault(alloc, explain, scenario, &fault, err),
    }
}

/// Looks through the interleavings of the scenario of `scenario` with its starts at each of the four levels, the weakest first, for each of these rules,
/// and writes to `out` what that came to.
///
/// There are the lines of each level, as `explore_rules_to` writes them, with the level as a last element and without a schedule; and then
/// `["enough",LEVEL]`, the first level from which on every schedule keeps every rule, or `["enough",null]`. Status 1 is for a rule that is broken at a level
/// at which it is to be kept, else 4 for one of which that was not decided, else 0. At each level as many moves may be made for each rule as `budget` has
/// left.
///
/// All else is as with `explore_rules_to`.
pub fn explore_levels_to<S: Source, W: Sink, E: Sink, O: Audience>(
    alloc: Global,
    explain: bool,
    scenario: &mut KeptSource<'_, S>,
    rules: &[Rule],
    waits: &[Wait],
    budget: &mut Budget<O>,
    out: &mut W,
    err: &mut E,
) -> u8
    requires scenario_works { S.failed scenario.old.source ≡ false }
    requires out_works { W.failed out.old ≡ false }
    requires err_works { E.failed err.old ≡ false }
    ensures ends { ExploresLevels explain waits.now rules.now (record { name = scenario.new.name.now; text = scenario.new.bytes.items }) (S.left scenario.old.source) (S.failed scenario.new.source)
        (record { before = W.held out.old; after = W.held out.new; failed = W.failed out.new })
        (record { before = E.held err.old; after = E.held err.new; failed = E.failed err.new }) result }
    ensures bounded { S.reads scenario.new.source ≤ S.reads scenario.old.source + MOST_READ }
{
    let searched = search_at_levels(alloc, scenario, rules, waits, budget);
    match write(out, searched) {
        Ok(verdict) => status_of(verdict),
        Err(fault) => report_search_fault(alloc, explain, scenario, &fault, err),
    }
}

/// Goes through the interleavings of the scenario of `scenario`, and writes to `out` what whole schedules, after which no move is left, come to.
///
/// Status 0 and `["outcome",STATE,ENDS]`, the present keys with their values and how each runner ended, for each outcome of a whole schedule,
/// once, ascending by the bytes of the line, and then `["outcomes",COUNT]`. Status 4 and `["open",LENGTH]`: as many moves were made as `budget`
/// had left, before all were found, and every schedule of at most LENGTH moves was gone through. Where `question` asks for witnesses, a line with
/// the scenario with the events of a schedule that comes to it stands behind each outcome: none that does is shorter.
///
/// Where it asks for serial orders: status 0 and `["serial",COUNT]`, some serial order comes to each of so many outcomes; status 1 and
/// `["anomaly",LENGTH,STATE,ENDS]`, none comes to this outcome, and the schedule of LENGTH moves does that stands, as a scenario, on a second line; or
/// status 4 and `["open",LENGTH]`. At each of the four levels there is such a line, with the level as a last element, and then `["enough",LEVEL]`.
///
/// All else is as with `explore_to`, for which there is a rule.
pub fn outcomes_to<S: Source, W: Sink, E: Sink, O: Audience>(
    alloc: Global,
    explain: bool,
    question: Question,
    scenario: &mut KeptSource<'_, S>,
    level: Option<Level>,
    budget: &mut Budget<O>,
    out: &mut W,
    err: &mut E,
) -> u8
    requires scenario_works { S.failed scenario.old.source ≡ false }
    requires out_works { W.failed out.old ≡ false }
    requires err_works { E.failed err.old ≡ false }
    ensures ends { GoesThrough explain question level (record { name = scenario.new.name.now; text = scenario.new.bytes.items }) (S.left scenario.old.source) (S.failed scenario.new.source)
        (record { before = W.held out.old; after = W.held out.new; failed = W.failed out.new })
        (record { before = E.held err.old; after = E.held err.new; failed = E.failed err.new }) result }
    ensures bounded { S.reads scenario.new.source ≤ S.reads scenario.old.source + MOST_READ }
{
    let gathered = outcomes_of_source(alloc, question, scenario, level, budget);
    match write(out, gathered) {
        Ok(verdict) => status_of(verdict),
        Err(fault) => report_search_fault(alloc, explain, scenario, &fault, err),
    }
}
