//! The command `check` over devices.
ghost use Rattle.std.specs.Prelude.{◌≡◌, ◌≤◌, ◌+◌, ◌++◌, false, IfOk, string_bytes};
ghost use Rattle.stm_devices.specs.declared.transfer.TheConstants.{MOST_READ};
ghost use Rattle.stm_explain.specs.Saying.{status_of as code_of, text_of as message_text, Reports};
ghost use Rattle.stm_check.specs.declared.checking.Checked.TheVariants.{No};
ghost use Rattle.stm_commands.specs.Checking.{answer_status, answer_text, fault_status, fault_message, SaysOf, Does, Ends};

use std::alloc::{AllocError, Global};
use stm_check::{CheckFault, Checked, WrongCause, check_sources};
use stm_explain::{Message, write_text};
use stm_report::{Sink, Source};

/// The status of an answer.
pub(crate) fn status_of(checked: Checked) -> u8
    ensures { result ≡ answer_status checked }
{
    match checked {
        Checked::Yes => 0,
        Checked::No { .. } => 1,
    }
}

/// The line of a wrong line.
fn no_text(alloc: Global, line: u64, cause: WrongCause) -> Result<String, AllocError>
    ensures { IfOk result (λ text. string_bytes text ≡ answer_text (No line cause)) }
{
    format!(in alloc; "no {line} {cause}\n")
}

/// The line of an answer.
fn text_of(alloc: Global, checked: Checked) -> Result<String, AllocError>
    ensures { IfOk result (λ text. string_bytes text ≡ answer_text checked) }
{
    match checked {
        Checked::Yes => String::from_str(alloc, "yes\n"),
        Checked::No { line, cause } => no_text(alloc, line, cause),
    }
}

/// Checks the report, and writes the line of the answer.
pub(crate) fn answer<S: Source, R: Source, W: Sink>(
    alloc: Global,
    scenario: &mut S,
    report: &mut R,
    out: &mut W,
) -> Result<Checked, CheckFault>
    requires scenario_works { S.failed scenario.old ≡ false }
    requires report_works { R.failed report.old ≡ false }
    requires out_works { W.failed out.old ≡ false }
    ensures done { Does (record {
      sources = record {
        scenario = S.left scenario.old;
        report = R.left report.old;
        scenario_failed = S.failed scenario.new;
        report_failed = R.failed report.new;
      };
      before = W.held out.old;
      after = W.held out.new;
      sink_failed = W.failed out.new;
    }) result }
    ensures scenario_bounded { S.reads scenario.new ≤ S.reads scenario.old + MOST_READ }
    ensures report_bounded { R.reads report.new ≤ R.reads report.old + MOST_READ }
{
    let checked = check_sources(alloc, scenario, report)?;
    let line = text_of(alloc, checked)?;
    write_text(out, line.as_str())?;
    Ok(checked)
}

/// What is said of a fault.
fn message(fault: &CheckFault) -> Message<'_>
    ensures status { code_of result ≡ fault_status fault.now }
    ensures text { message_text result ≡ fault_message fault.now }
{
    match fault {
        CheckFault::BadScenario(bad) => Message::Bad {
            begin: "stmrun: bad scenario at ",
            bad,
        },
        CheckFault::BadReport(bad) => Message::Bad {
            begin: "stmrun: bad report at ",
            bad,
        },
        CheckFault::OutOfMemory => Message::OutOfMemory,
        CheckFault::Device => Message::Device,
    }
}

/// Says what went wrong, and returns the status. Takes no memory.
pub(crate) fn report_fault<E: Sink>(err: &mut E, fault: &CheckFault) -> u8
    requires { E.failed err.old ≡ false }
    ensures { SaysOf (E.held err.old) (E.held err.new) (E.failed err.new) fault.now result }
{
    message(fault).report(err)
}

/// Says what went wrong and more after it, and returns the status.
pub(crate) fn report_explained<E: Sink>(err: &mut E, fault: &CheckFault, more: &str) -> u8
    requires { E.failed err.old ≡ false }
    ensures { Reports (fault_status fault.now) (fault_message fault.now ++ more.now) (E.held err.old) (E.held err.new) (E.failed err.new) result }
{
    message(fault).report_with(err, more)
}

/// Checks whether `report` is a report of the scenario of `scenario`, and writes `yes` or `no LINE CAUSE` to `out`: the
/// first wrong line, counted from 1, and why it is wrong.
///
/// The scenario is read and judged first, then the report. Gives the status: 0 for yes, 1 for no, 2 where one of the two
/// is bad, 3 where an allocation failed or one of the devices but `err` failed. On `err` it says what went wrong, and
/// takes no memory for it: `stmrun: bad scenario at PLACE: CAUSE`, `stmrun: bad report at PLACE: CAUSE`,
/// `stmrun: out of memory` or `stmrun: device fault`, whole where `err` then has not failed. That `err` fails changes no
/// status. None of the devices has failed before. `scenario` and `report` are read at most 16777217 times each.
pub fn check_to<S: Source, R: Source, W: Sink, E: Sink>(
    alloc: Global,
    scenario: &mut S,
    report: &mut R,
    out: &mut W,
    err: &mut E,
) -> u8
    requires scenario_works { S.failed scenario.old ≡ false }
    requires report_works { R.failed report.old ≡ false }
    requires out_works { W.failed out.old ≡ false }
    requires err_works { E.failed err.old ≡ false }
    ensures ends { Ends (record {
      sources = record {
        scenario = S.left scenario.old;
        report = R.left report.old;
        scenario_failed = S.failed scenario.new;
        report_failed = R.failed report.new;
      };
      before = W.held out.old;
      after = W.held out.new;
      sink_failed = W.failed out.new;
    }) (E.held err.old) (E.held err.new) (E.failed err.new) result }
    ensures scenario_bounded { S.reads scenario.new ≤ S.reads scenario.old + MOST_READ }
    ensures report_bounded { R.reads report.new ≤ R.reads report.old + MOST_READ }
{
    match answer(alloc, scenario, report, out) {
        Ok(checked) => status_of(checked),
        Err(fault) => report_fault(err, &fault),
    }
}
