//! From the bytes of a scenario and of a report to what the check comes to.
ghost use Rattle.std.specs.Prelude.{◌≡◌, ◌≤◌, ◌+◌, false};
ghost use Rattle.stm_devices.specs.declared.transfer.TheConstants.{MOST_READ};
ghost use Rattle.stm_check.specs.Sources.{ReadsScenario, ReadsReport, Judges};

use crate::checking::{Checked, check};
use std::alloc::{AllocError, Global};
use stm_devices::{DeviceFault, ReadFault, Source, read_all};
use stm_events::Report;
use stm_report_lines::read_report;
use stm_texts::{BadInput, ReadError, Scenario, read_scenario};
use thiserror::Error;

/// Why a check came to no answer.
#[derive(Debug, Drop, Error)]
pub enum CheckFault {
    /// A growth was refused.
    #[error("out of memory")]
    OutOfMemory,
    /// The first input is no scenario: its first fault.
    #[error("bad scenario {0}")]
    BadScenario(BadInput),
    /// The second input is no report: its first fault.
    #[error("bad report {0}")]
    BadReport(BadInput),
    /// A device failed.
    #[error("device fault")]
    Device,
}

impl From<AllocError> for CheckFault {
    ghost use Rattle.std.specs.Prelude.{◌≡◌};
    ghost use Rattle.stm_check.specs.declared.sources.CheckFault.TheVariants.{OutOfMemory};

    ghost from_gives = { λ _ fault. fault ≡ OutOfMemory };

    fn from(_error: AllocError) -> CheckFault {
        CheckFault::OutOfMemory
    }
}

impl From<DeviceFault> for CheckFault {
    ghost use Rattle.std.specs.Prelude.{◌≡◌};
    ghost use Rattle.stm_check.specs.declared.sources.CheckFault.TheVariants.{Device};

    ghost from_gives = { λ _ fault. fault ≡ Device };

    fn from(_fault: DeviceFault) -> CheckFault {
        CheckFault::Device
    }
}

impl From<ReadFault> for CheckFault {
    ghost use Rattle.std.specs.Prelude.{◌≡◌};
    ghost use Rattle.stm_check.specs.Sources.{fault_of_read};

    ghost from_gives = { λ read fault. fault ≡ fault_of_read read };

    fn from(fault: ReadFault) -> CheckFault {
        match fault {
            ReadFault::OutOfMemory => CheckFault::OutOfMemory,
            ReadFault::Device => CheckFault::Device,
        }
    }
}

/// The scenario of a source.
fn scenario_of<S: Source>(alloc: Global, source: &mut S) -> Result<Scenario, CheckFault>
    requires { S.failed source.old ≡ false }
    ensures scenario { ReadsScenario (S.left source.old) (S.failed source.new) result }
    ensures bounded { S.reads source.new ≤ S.reads source.old + MOST_READ }
{
    let bytes = read_all(alloc, source)?;
    match read_scenario(alloc, bytes.as_slice()) {
        Ok(scenario) => Ok(scenario),
        Err(ReadError::OutOfMemory) => Err(CheckFault::OutOfMemory),
        Err(ReadError::Bad(fault)) => Err(CheckFault::BadScenario(fault)),
    }
}

/// The report of a source.
fn report_of<S: Source>(alloc: Global, source: &mut S) -> Result<Report, CheckFault>
    requires { S.failed source.old ≡ false }
    ensures report { ReadsReport (S.left source.old) (S.failed source.new) result }
    ensures bounded { S.reads source.new ≤ S.reads source.old + MOST_READ }
{
    let bytes = read_all(alloc, source)?;
    match read_report(alloc, bytes.as_slice()) {
        Ok(report) => Ok(report),
        Err(ReadError::OutOfMemory) => Err(CheckFault::OutOfMemory),
        Err(ReadError::Bad(fault)) => Err(CheckFault::BadReport(fault)),
    }
}

/// Reads a scenario from its source to the end, then a report from its own, and checks the report.
///
/// Neither source has failed before. It fails as `BadScenario` with the scenario's first fault, and then the report is
/// not read; as `BadReport` with the report's first fault; as `OutOfMemory` where a growth was refused; and as `Device`
/// exactly where a source has failed. At most 16777217 bytes of each are read, in at most as many reads.
pub fn check_sources<S: Source, R: Source>(
    alloc: Global,
    scenario: &mut S,
    report: &mut R,
) -> Result<Checked, CheckFault>
    requires scenario_works { S.failed scenario.old ≡ false }
    requires report_works { R.failed report.old ≡ false }
    ensures judged { Judges (record {
      scenario = S.left scenario.old;
      report = R.left report.old;
      scenario_failed = S.failed scenario.new;
      report_failed = R.failed report.new;
    }) result }
    ensures scenario_bounded { S.reads scenario.new ≤ S.reads scenario.old + MOST_READ }
    ensures report_bounded { R.reads report.new ≤ R.reads report.old + MOST_READ }
{
    let scenario = scenario_of(alloc, scenario)?;
    let report = report_of(alloc, report)?;
    Ok(check(alloc, &scenario, &report)?)
}
