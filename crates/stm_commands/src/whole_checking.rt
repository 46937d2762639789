//! What the command `check --whole` answers, and what it says of a no.
ghost use Rattle.std.specs.Prelude.{◌≡◌, ◌≤◌, ◌+◌, ◌++◌, codes, false, IfOk, string_bytes};
ghost use Rattle.stm_devices.specs.declared.transfer.TheConstants.{MOST_READ};
ghost use Rattle.stm_devices.specs.Transfers.{HasWritten};
ghost use Rattle.stm_commands.specs.WholeChecking.{no_text, answer_text, expected_text, SaysExpected, SaysOfAnswer, Does};

use std::alloc::{AllocError, Global};
use stm_check::CheckFault;
use stm_explain::write_text;
use stm_report::{DeviceFault, Sink, Source, WholeChecked, check_whole, write_all};

/// The line of a line that is not as expected.
fn no_line(alloc: Global, line: u64) -> Result<String, AllocError>
    ensures { IfOk result (λ text. string_bytes text ≡ no_text line) }
{
    format!(in alloc; "no {line} Differs\n")
}

/// The line of an answer.
fn text_of(alloc: Global, checked: &WholeChecked) -> Result<String, AllocError>
    ensures { IfOk result (λ text. string_bytes text ≡ answer_text checked.now) }
{
    match checked {
        WholeChecked::Yes => String::from_str(alloc, "yes\n"),
        WholeChecked::No { line, .. } => no_line(alloc, *line),
    }
}

/// Compares the report, and writes the line of the answer.
pub(crate) fn answer<S: Source, R: Source, W: Sink>(
    alloc: Global,
    scenario: &mut S,
    report: &mut R,
    out: &mut W,
) -> Result<WholeChecked, CheckFault>
    requires scenario_works { S.failed scenario.old ≡ false }
    requires report_works { R.failed report.old ≡ false }
    requires out_works { W.failed out.old ≡ false }
    ensures done { Does (record {
      sources = record {
        scenario = S.left scenario.old;
        report = R.left report.old;
        scenario_failed = S.failed scenario.new;
        report_failed = R.failed report.new;
      };
      before = W.held out.old;
      after = W.held out.new;
      sink_failed = W.failed out.new;
    }) result }
    ensures scenario_bounded { S.reads scenario.new ≤ S.reads scenario.old + MOST_READ }
    ensures report_bounded { R.reads report.new ≤ R.reads report.old + MOST_READ }
{
    let checked = check_whole(alloc, scenario, report)?;
    let line = text_of(alloc, &checked)?;
    write_text(out, line.as_str())?;
    Ok(checked)
}

/// Writes which line is expected, and that none is where the report has ended. Where the sink fails, a front of that was written.
fn write_expected<E: Sink>(err: &mut E, expected: &[u8]) -> Result<(), DeviceFault>
    requires { E.failed err.old ≡ false }
    ensures { HasWritten (E.held err.old) (E.held err.new) (E.failed err.new) result (expected_text expected.now) }
{
    if expected.is_empty() {
        return write_text(err, "stmrun: expected no more lines\n");
    }
    write_line(err, expected)
}

/// Writes the line that is expected, which has its line feed. Where the sink fails, a front of that was written.
fn write_line<E: Sink>(err: &mut E, line: &[u8]) -> Result<(), DeviceFault>
    requires { E.failed err.old ≡ false }
    ensures { HasWritten (E.held err.old) (E.held err.new) (E.failed err.new) result (codes "stmrun: expected " ++ line.now) }
{
    write_text(err, "stmrun: expected ")?;
    write_all(err, line)?;
    Ok(())
}

/// Says which line is expected, and gives the status of a no. Takes no memory.
fn say_expected<E: Sink>(err: &mut E, expected: &[u8]) -> u8
    requires { E.failed err.old ≡ false }
    ensures { SaysExpected (E.held err.old) (E.held err.new) (E.failed err.new) expected.now result }
{
    let _ = write_expected(err, expected);
    1
}

/// Says which line is expected where one is not alike, and gives the status. Takes no memory.
pub(crate) fn say<E: Sink>(err: &mut E, checked: &WholeChecked) -> u8
    requires { E.failed err.old ≡ false }
    ensures { SaysOfAnswer (E.held err.old) (E.held err.new) (E.failed err.new) checked.now result }
{
    match checked {
        WholeChecked::Yes => 0,
        WholeChecked::No { expected, .. } => say_expected(err, expected.as_slice()),
    }
}
