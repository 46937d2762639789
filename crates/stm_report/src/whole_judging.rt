//! From the bytes of a scenario and of a report to what the comparison comes to.
ghost use Rattle.std.specs.Prelude.{◌≡◌, ◌≤◌, ◌+◌, length, IsTrue, true, false};
ghost use Rattle.stm_devices.specs.declared.transfer.TheConstants.{MOST_READ};
ghost use Rattle.stm_json.specs.declared.limits.TheConstants.{MOST_BYTES};
ghost use Rattle.stm_report.specs.WholeComparing.{is_yes};
ghost use Rattle.stm_report.specs.WholeJudging.{HasForm, JudgesText, MakesReport, Judges};

use crate::run_script::{ScriptFault, script};
use crate::whole_comparing::{WholeChecked, compared};
use std::alloc::Global;
use stm_check::CheckFault;
use stm_devices::{Source, Std, read_all};
use stm_json::{MOST_BYTES, ReadError};
use stm_report_lines::read_report;

/// The answer, where the text is a report in its format, and else its first fault.
fn judge_form(
    alloc: Global,
    given: &[u8],
    checked: WholeChecked,
) -> Result<WholeChecked, CheckFault>
    ensures { HasForm given.now checked result }
{
    match read_report(alloc, given) {
        Ok(report) => {
            drop(report);
            Ok(checked)
        }
        Err(ReadError::OutOfMemory) => Err(CheckFault::OutOfMemory),
        Err(ReadError::Bad(fault)) => Err(CheckFault::BadReport(fault)),
    }
}

/// Whether a text is judged without a look at its form: it is the expected one, and not too long.
fn is_settled(given: &[u8], checked: &WholeChecked) -> bool
    ensures settled { IsTrue result → (length given.now ≤ MOST_BYTES) × (is_yes checked.now ≡ true) }
    ensures open { result ≡ false → length given.now ≤ MOST_BYTES → is_yes checked.now ≡ true → ⊥ }
{
    given.len() <= MOST_BYTES && checked.is_yes()
}

/// The judgement on a text beside the report that is expected: the report itself is one in its format, unless it is too long.
fn judge_text(alloc: Global, expected: &[u8], given: &[u8]) -> Result<WholeChecked, CheckFault>
    ensures { JudgesText expected.now given.now result }
{
    let checked = compared(alloc, expected, given)?;
    if is_settled(given, &checked) {
        return Ok(checked);
    }
    judge_form(alloc, given, checked)
}

/// The report that `script` writes for the scenario of a source, written to memory.
fn expected_of<S: Source>(alloc: Global, scenario: &mut S) -> Result<Vec<u8>, CheckFault>
    requires { S.failed scenario.old ≡ false }
    ensures report { MakesReport (λ report. report.items) (S.left scenario.old) (S.failed scenario.new) result }
    ensures bounded { S.reads scenario.new ≤ S.reads scenario.old + MOST_READ }
{
    let mut sink = Std::new(Vec::new(alloc));
    match script(alloc, scenario, &mut sink) {
        Ok(()) => Ok(sink.device),
        Err(ScriptFault::Bad(fault)) => Err(CheckFault::BadScenario(fault)),
        Err(ScriptFault::Read) => Err(CheckFault::Device),
        Err(ScriptFault::OutOfMemory) => Err(CheckFault::OutOfMemory),
        // Memory takes all that is written to it, unless a growth was refused.
        Err(ScriptFault::Write) => Err(CheckFault::OutOfMemory),
    }
}

/// Reads a scenario from its source to the end, then a text from its own, and compares the text with the report that `script`
/// writes of the scenario, line by line.
///
/// It answers `Yes` exactly where the text is that report, byte by byte, and else the first line that is not alike, where the text is a
/// report in its format. Neither source has failed before. It fails as `BadScenario` with the scenario's first fault, and then the text is
/// not read; as `BadReport` with the text's first fault; as `OutOfMemory` where a growth was refused; and as `Device` exactly where a source
/// has failed. A text of more than 16777216 bytes is a bad report. At most 16777217 bytes of each are read, in at most that many reads of each.
pub fn check_whole<S: Source, R: Source>(
    alloc: Global,
    scenario: &mut S,
    report: &mut R,
) -> Result<WholeChecked, CheckFault>
    requires scenario_works { S.failed scenario.old ≡ false }
    requires report_works { R.failed report.old ≡ false }
    ensures judged { Judges (record {
      scenario = S.left scenario.old;
      report = R.left report.old;
      scenario_failed = S.failed scenario.new;
      report_failed = R.failed report.new;
    }) result }
    ensures scenario_bounded { S.reads scenario.new ≤ S.reads scenario.old + MOST_READ }
    ensures report_bounded { R.reads report.new ≤ R.reads report.old + MOST_READ }
{
    let expected = expected_of(alloc, scenario)?;
    let given = read_all(alloc, report)?;
    judge_text(alloc, expected.as_slice(), given.as_slice())
}
