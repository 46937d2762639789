//! The commands `script`, in a format, and `check`, which explain, where they are to, a bad input after what they say of it, and runs that came to a fault.
ghost use Rattle.std.specs.Prelude.{◌≡◌, ◌≤◌, ◌+◌, false, IfOk, string_bytes};
ghost use Rattle.stm_devices.specs.declared.transfer.TheConstants.{MOST_READ};
ghost use Rattle.stm_texts.specs.Reading.{scenario_in};
ghost use Rattle.stm_faulted_runs.specs.Lines.{ExplainsRun};
ghost use Rattle.stm_commands.specs.Explaining.{Explained, ScriptExplains, ScriptSays, SaysRuns, SaysOfRuns, ScriptEnds, CheckExplains, CheckSays, CheckEnds, WholeCheckEnds};

use crate::checking::{answer, report_explained as report_check, status_of};
use crate::scripting::report_explained as report_script;
use crate::whole_checking::{answer as whole_answer, say};
use std::alloc::{AllocError, Global};
use stm_check::CheckFault;
use stm_explain::{Input, KeptSource, write_text};
use stm_faulted_runs::{Named, faults_explained, said_of};
use stm_report::{Format, RunnerLabel, ScriptFault, Sink, Source, script_as};

// ---- explanations

/// The explanation of what is wrong with a scenario, where faults are explained; none of another fault.
fn script_explanation<S>(
    alloc: Global,
    explain: bool,
    input: &KeptSource<'_, S>,
    fault: &ScriptFault,
) -> String
    ensures { Explained explain (ScriptExplains input.now.name.now input.now.bytes.items fault.now) (string_bytes result) }
{
    if !explain {
        return String::new(alloc);
    }
    match fault {
        ScriptFault::Bad(bad) => input.explanation(alloc, Input::Scenario, bad),
        ScriptFault::OutOfMemory | ScriptFault::Read | ScriptFault::Write => String::new(alloc),
    }
}

/// The explanation of what is wrong with a scenario or a report, where faults are explained; none of another fault.
fn check_explanation<S, R>(
    alloc: Global,
    explain: bool,
    scenario: &KeptSource<'_, S>,
    report: &KeptSource<'_, R>,
    fault: &CheckFault,
) -> String
    ensures { Explained explain (CheckExplains (record {
      scenario_name = scenario.now.name.now;
      scenario_text = scenario.now.bytes.items;
      report_name = report.now.name.now;
      report_text = report.now.bytes.items;
    }) fault.now) (string_bytes result) }
{
    if !explain {
        return String::new(alloc);
    }
    match fault {
        CheckFault::BadScenario(bad) => scenario.explanation(alloc, Input::Checked, bad),
        CheckFault::BadReport(bad) => report.explanation(alloc, Input::Report, bad),
        CheckFault::OutOfMemory | CheckFault::Device => String::new(alloc),
    }
}

/// The explanations of the runs of a scenario that came to a fault, by its text. It fails where an allocation failed, now or when the text was kept.
fn runs_explained<S>(alloc: Global, input: &KeptSource<'_, S>) -> Result<String, AllocError>
    ensures { IfOk result (λ lines. ExplainsRun input.now.name.now input.now.bytes.items (scenario_in input.now.bytes.items) (string_bytes lines)) }
{
    let name = input.name;
    match input.text() {
        Some(text) => faults_explained(alloc, &Named { name, text }),
        None => Err(AllocError),
    }
}

/// Says what went wrong with a script, explains it where faults are explained, and gives the status.
fn report_script_fault<S, E: Sink>(
    alloc: Global,
    explain: bool,
    input: &KeptSource<'_, S>,
    fault: &ScriptFault,
    err: &mut E,
) -> u8
    requires { E.failed err.old ≡ false }
    ensures { ScriptSays explain input.now.name.now input.now.bytes.items (E.held err.old) (E.held err.new) (E.failed err.new) fault.now result }
{
    let more = script_explanation(alloc, explain, input, fault);
    report_script(err, fault, more.as_str())
}

/// Says what went wrong with a check, explains it where faults are explained, and gives the status.
fn report_check_fault<S, R, E: Sink>(
    alloc: Global,
    explain: bool,
    scenario: &KeptSource<'_, S>,
    report: &KeptSource<'_, R>,
    fault: &CheckFault,
    err: &mut E,
) -> u8
    requires { E.failed err.old ≡ false }
    ensures { CheckSays explain (record {
      scenario_name = scenario.now.name.now;
      scenario_text = scenario.now.bytes.items;
      report_name = report.now.name.now;
      report_text = report.now.bytes.items;
    }) (E.held err.old) (E.held err.new) (E.failed err.new) fault.now result }
{
    let more = check_explanation(alloc, explain, scenario, report, fault);
    report_check(err, fault, more.as_str())
}

// ---- runs that came to a fault

/// Explains the runs of a scenario that came to a fault, and gives the status of a good end.
fn report_runs<S, E: Sink>(alloc: Global, input: &KeptSource<'_, S>, err: &mut E) -> u8
    requires { E.failed err.old ≡ false }
    ensures status { result ≡ 0 }
    ensures says { SaysRuns input.now.name.now input.now.bytes.items (E.held err.old) (E.held err.new) (E.failed err.new) }
{
    let explained = runs_explained(alloc, input);
    let _ = write_text(err, said_of(&explained));
    0
}

/// The same, where faults are explained; else nothing is said.
fn report_end<S, E: Sink>(
    alloc: Global,
    explain: bool,
    input: &KeptSource<'_, S>,
    err: &mut E,
) -> u8
    requires { E.failed err.old ≡ false }
    ensures status { result ≡ 0 }
    ensures says { SaysOfRuns explain input.now.name.now input.now.bytes.items (E.held err.old) (E.held err.new) (E.failed err.new) }
{
    if !explain {
        return 0;
    }
    report_runs(alloc, input, err)
}

// ---- the commands

/// Runs the scenario of `input` and writes its report to `out` in a format, with runners of these labels, whole or not at all but for a failed `out`.
///
/// The statuses and what is said on `err` are those of `script_to`, which writes lines. Where faults are to be explained, there stands after what is
/// said of a bad scenario its explanation, as a line `NAME:LINE:COLUMN: WORDS`, and of a scenario that was run a line for each run that came to a fault;
/// or nothing where an allocation failed for these. None of the devices has failed before. `input` is read at most 16777217 times.
pub fn script_as_to<S: Source, W: Sink, E: Sink>(
    alloc: Global,
    format: Format,
    labels: &[RunnerLabel],
    explain: bool,
    input: &mut KeptSource<'_, S>,
    out: &mut W,
    err: &mut E,
) -> u8
    requires input_works { S.failed input.old.source ≡ false }
    requires out_works { W.failed out.old ≡ false }
    requires err_works { E.failed err.old ≡ false }
    ensures ends { ScriptEnds explain format labels.now input.new.name.now input.new.bytes.items (record {
      input = S.left input.old.source;
      before = W.held out.old;
      after = W.held out.new;
      source_failed = S.failed input.new.source;
      sink_failed = W.failed out.new;
    }) (E.held err.old) (E.held err.new) (E.failed err.new) result }
    ensures bounded { S.reads input.new.source ≤ S.reads input.old.source + MOST_READ }
{
    match script_as(alloc, format, labels, input, out) {
        Ok(()) => report_end(alloc, explain, input, err),
        Err(fault) => report_script_fault(alloc, explain, input, &fault, err),
    }
}

/// Does what `check_to` does, with that status and that output. Where faults are to be explained, there stands after what is said of a bad input its
/// explanation, as a line `NAME:LINE:COLUMN: WORDS`, or nothing where an allocation failed for it.
pub fn check_as_to<S: Source, R: Source, W: Sink, E: Sink>(
    alloc: Global,
    explain: bool,
    scenario: &mut KeptSource<'_, S>,
    report: &mut KeptSource<'_, R>,
    out: &mut W,
    err: &mut E,
) -> u8
    requires scenario_works { S.failed scenario.old.source ≡ false }
    requires report_works { R.failed report.old.source ≡ false }
    requires out_works { W.failed out.old ≡ false }
    requires err_works { E.failed err.old ≡ false }
    ensures ends { CheckEnds explain (record {
      scenario_name = scenario.new.name.now;
      scenario_text = scenario.new.bytes.items;
      report_name = report.new.name.now;
      report_text = report.new.bytes.items;
    }) (record {
      sources = record {
        scenario = S.left scenario.old.source;
        report = R.left report.old.source;
        scenario_failed = S.failed scenario.new.source;
        report_failed = R.failed report.new.source;
      };
      before = W.held out.old;
      after = W.held out.new;
      sink_failed = W.failed out.new;
    }) (E.held err.old) (E.held err.new) (E.failed err.new) result }
    ensures scenario_bounded { S.reads scenario.new.source ≤ S.reads scenario.old.source + MOST_READ }
    ensures report_bounded { R.reads report.new.source ≤ R.reads report.old.source + MOST_READ }
{
    match answer(alloc, scenario, report, out) {
        Ok(checked) => status_of(checked),
        Err(fault) => report_check_fault(alloc, explain, scenario, report, &fault, err),
    }
}

/// Compares the text of `report` with the report that `script` writes of the scenario of `scenario`, line by line, and writes `yes` or
/// `no LINE Differs` to `out`: the first line that is not alike, counted from 1.
///
/// The scenario is read and judged first, then the text. Gives the status: 0 for yes, 1 for no, 2 where the scenario is bad or the text
/// is no report in its format, 3 where an allocation failed or one of the devices but `err` failed. On `err` it says at a no what is
/// expected, `stmrun: expected LINE`, or `stmrun: expected no more lines` where the scenario's report has ended, and of a fault what
/// `check_as_to` says of it. At a no that takes no memory, and it is whole where `err` then has not failed. That `err` fails changes no status. None of
/// the devices has failed before. `scenario` and `report` are read at most 16777217 times each.
pub fn check_whole_to<S: Source, R: Source, W: Sink, E: Sink>(
    alloc: Global,
    explain: bool,
    scenario: &mut KeptSource<'_, S>,
    report: &mut KeptSource<'_, R>,
    out: &mut W,
    err: &mut E,
) -> u8
    requires scenario_works { S.failed scenario.old.source ≡ false }
    requires report_works { R.failed report.old.source ≡ false }
    requires out_works { W.failed out.old ≡ false }
    requires err_works { E.failed err.old ≡ false }
    ensures ends { WholeCheckEnds explain (record {
      scenario_name = scenario.new.name.now;
      scenario_text = scenario.new.bytes.items;
      report_name = report.new.name.now;
      report_text = report.new.bytes.items;
    }) (record {
      sources = record {
        scenario = S.left scenario.old.source;
        report = R.left report.old.source;
        scenario_failed = S.failed scenario.new.source;
        report_failed = R.failed report.new.source;
      };
      before = W.held out.old;
      after = W.held out.new;
      sink_failed = W.failed out.new;
    }) (E.held err.old) (E.held err.new) (E.failed err.new) result }
    ensures scenario_bounded { S.reads scenario.new.source ≤ S.reads scenario.old.source + MOST_READ }
    ensures report_bounded { R.reads report.new.source ≤ R.reads report.old.source + MOST_READ }
{
    match whole_answer(alloc, scenario, report, out) {
        Ok(checked) => say(err, &checked),
        Err(fault) => report_check_fault(alloc, explain, scenario, report, &fault, err),
    }
}
