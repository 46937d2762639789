//! Reading the scenario, or the program, that is to be kept.
ghost use Rattle.std.specs.Prelude.{◌≡◌, Ok as OkOf, IfOk, false};
ghost use Rattle.stm_program_texts.specs.Reading.{program_in};
ghost use Rattle.stm_texts.specs.Opens.{IsOpening};
ghost use Rattle.stm_texts.specs.Reading.{scenario_in};

use std::alloc::Global;
use stm_devices::{ReadFault, Source, read_all};
use stm_json::BadInput;
use stm_program::Program;
use stm_program_texts::read_program_text;
use stm_report::{ReadError, Scenario, read_scenario};
use thiserror::Error;

/// Why a scenario or a program was not read.
#[derive(Debug, Drop, Error)]
pub enum InputFault {
    /// An allocation failed.
    #[error("out of memory")]
    OutOfMemory,
    /// The source failed.
    #[error("device fault")]
    Device,
    /// The text is none: its first fault.
    #[error(transparent)]
    Bad(BadInput),
}

/// Why the bytes of a source were not read.
fn unread(fault: ReadFault) -> InputFault {
    match fault {
        ReadFault::OutOfMemory => InputFault::OutOfMemory,
        ReadFault::Device => InputFault::Device,
    }
}

/// Why a text was not read.
pub(crate) fn unspelled(error: ReadError) -> InputFault {
    match error {
        ReadError::OutOfMemory => InputFault::OutOfMemory,
        ReadError::Bad(bad) => InputFault::Bad(bad),
    }
}

/// The text of a source, and the scenario that it spells.
pub fn read_input<S: Source>(
    alloc: Global,
    input: &mut S,
) -> Result<(Vec<u8>, Scenario), InputFault>
    requires { S.failed input.old ≡ false }
    ensures spelled { IfOk result (λ read. scenario_in read.0.items ≡ OkOf read.1) }
    ensures opening { IfOk result (λ read. IsOpening read.1.opening) }
{
    let bytes = match read_all(alloc, input) {
        Ok(bytes) => bytes,
        Err(fault) => return Err(unread(fault)),
    };
    match read_scenario(alloc, &bytes) {
        Ok(scenario) => Ok((bytes, scenario)),
        Err(error) => Err(unspelled(error)),
    }
}

/// The text of a source, and the program that it spells.
pub fn read_program<S: Source>(
    alloc: Global,
    input: &mut S,
) -> Result<(Vec<u8>, Program), InputFault>
    requires { S.failed input.old ≡ false }
    ensures { IfOk result (λ read. program_in read.0.items ≡ OkOf read.1) }
{
    let bytes = match read_all(alloc, input) {
        Ok(bytes) => bytes,
        Err(fault) => return Err(unread(fault)),
    };
    match read_program_text(alloc, &bytes) {
        Ok(program) => Ok((bytes, program)),
        Err(error) => Err(unspelled(error)),
    }
}
