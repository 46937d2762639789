//! Reading what a search is asked.
ghost use Rattle.std.specs.Prelude.{◌≡◌, ◌≤◌, ◌+◌, false, IfOk};
ghost use Rattle.stm_devices.specs.declared.transfer.TheConstants.{MOST_READ};
ghost use Rattle.stm_json.specs.Returns.{Returns};
ghost use Rattle.stm_serial_search.specs.Started.{HaveNoStep};
ghost use Rattle.stm_exploring.specs.Exploring.{asked_in, ReadsScenario, ReadsProgram};

use crate::asking::ask;
use crate::audience::{Audience, tell_left_out};
use crate::refused::tell_events;
use std::alloc::{AllocError, Global};
use stm_devices::{ReadFault, Source, read_all};
use stm_json::{BadInput, ReadError};
use stm_program::{Level, Program};
use stm_program_texts::read_program_text;
use stm_texts::{Scenario, read_scenario};
use thiserror::Error;

/// Why a search came to no answer.
#[derive(Debug, Drop, Error)]
pub enum ExploreFault {
    /// An allocation failed.
    #[error("out of memory")]
    OutOfMemory,
    /// The first input is no scenario: its first fault.
    #[error("bad scenario {0}")]
    BadScenario(BadInput),
    /// The second input is no program: its first fault.
    #[error("bad program {0}")]
    BadProgram(BadInput),
    /// A runner that the scenario does not have is to wait, or to be waited for: the wait as it is spelled, with the cause `Range`.
    #[error("bad wait {0}")]
    BadWait(BadInput),
    /// A device failed.
    #[error("device fault")]
    Device,
}

impl From<AllocError> for ExploreFault {
    ghost use Rattle.std.specs.Prelude.{◌≡◌};
    ghost use Rattle.stm_exploring.specs.declared.reading.ExploreFault.TheVariants.{OutOfMemory};

    ghost from_gives = { λ _ fault. fault ≡ OutOfMemory };

    fn from(_error: AllocError) -> ExploreFault {
        ExploreFault::OutOfMemory
    }
}

impl From<ReadFault> for ExploreFault {
    ghost use Rattle.std.specs.Prelude.{◌≡◌};
    ghost use Rattle.stm_exploring.specs.Exploring.{fault_of_read};

    ghost from_gives = { λ read fault. fault ≡ fault_of_read read };

    fn from(fault: ReadFault) -> ExploreFault {
        match fault {
            ReadFault::OutOfMemory => ExploreFault::OutOfMemory,
            ReadFault::Device => ExploreFault::Device,
        }
    }
}

/// The scenario that bytes spell, as it is asked about. It is said how many steps are left out, and which events do nothing.
fn scenario_in_bytes<O: Audience>(
    alloc: Global,
    bytes: &[u8],
    level: Option<Level>,
    audience: &mut O,
) -> Result<Scenario, ReadError>
    ensures scenario { Returns (λ s. s) result (asked_in level bytes.now) }
    ensures stepless { IfOk result (λ s. HaveNoStep s.events) }
{
    let scenario = read_scenario(alloc, bytes)?;
    let count = scenario.events.len();
    let asked = ask(level, scenario);
    tell_left_out(alloc, count.saturating_sub(asked.events.len()), audience);
    tell_events(alloc, &asked, audience);
    Ok(asked)
}

/// The scenario of a source, as it is asked about. It is said how many steps are left out, and which events do nothing.
pub(crate) fn scenario_of<S: Source, O: Audience>(
    alloc: Global,
    source: &mut S,
    level: Option<Level>,
    audience: &mut O,
) -> Result<Scenario, ExploreFault>
    requires { S.failed source.old ≡ false }
    ensures scenario { ReadsScenario level (S.left source.old) (S.failed source.new) result }
    ensures stepless { IfOk result (λ s. HaveNoStep s.events) }
    ensures bounded { S.reads source.new ≤ S.reads source.old + MOST_READ }
{
    let bytes = read_all(alloc, source)?;
    match scenario_in_bytes(alloc, bytes.as_slice(), level, audience) {
        Ok(scenario) => Ok(scenario),
        Err(ReadError::OutOfMemory) => Err(ExploreFault::OutOfMemory),
        Err(ReadError::Bad(fault)) => Err(ExploreFault::BadScenario(fault)),
    }
}

/// The program of a source.
pub(crate) fn program_of<S: Source>(alloc: Global, source: &mut S) -> Result<Program, ExploreFault>
    requires { S.failed source.old ≡ false }
    ensures program { ReadsProgram (S.left source.old) (S.failed source.new) result }
    ensures bounded { S.reads source.new ≤ S.reads source.old + MOST_READ }
{
    let bytes = read_all(alloc, source)?;
    match read_program_text(alloc, bytes.as_slice()) {
        Ok(program) => Ok(program),
        Err(ReadError::OutOfMemory) => Err(ExploreFault::OutOfMemory),
        Err(ReadError::Bad(fault)) => Err(ExploreFault::BadProgram(fault)),
    }
}
