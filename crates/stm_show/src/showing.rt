//! From the bytes of a source to the text in a sink.
ghost use Rattle.std.specs.Prelude.{◌≡◌, ◌≤◌, ◌+◌, false, string_bytes};
ghost use Rattle.stm_devices.specs.declared.transfer.TheConstants.{MOST_READ};
ghost use Rattle.stm_json.specs.Returns.{Returns};
ghost use Rattle.stm_program_source.specs.Program.{shown_program};
ghost use Rattle.stm_program_texts.specs.Reading.{program_in};
ghost use Rattle.stm_texts.specs.Reading.{scenario_in};
ghost use Rattle.stm_show.specs.Scenario.{shown_scenario};
ghost use Rattle.stm_show.specs.Showing.{text_of, source_in, Writes, Does};

use crate::scenario::scenario_source;
use std::alloc::Global;
use stm_devices::{ReadFault, Sink, Source, read_all, write_all};
use stm_json::{BadInput, ReadError};
use stm_program_source::program_source;
use stm_program_texts::read_program_text;
use stm_texts::read_scenario;
use thiserror::Error;

/// What is printed as a source.
#[derive(Clone, Copy, Debug, PartialEq, Eq)]
pub enum Shown {
    /// A scenario.
    Scenario,
    /// A program, as a body.
    Program,
}

/// Why nothing, or not all, was printed.
#[derive(Debug, Drop, Error)]
pub enum ShowFault {
    /// An allocation failed.
    #[error("out of memory")]
    OutOfMemory,
    /// The input is no scenario, or no program: its first fault.
    #[error("bad input {0}")]
    Bad(BadInput),
    /// The source failed.
    #[error("device fault")]
    Read,
    /// The sink failed.
    #[error("device fault")]
    Write,
}

/// The source of the scenario that bytes spell.
fn scenario_text(alloc: Global, bytes: &[u8]) -> Result<String, ReadError>
    ensures { Returns string_bytes result (text_of shown_scenario (scenario_in bytes.now)) }
{
    let scenario = read_scenario(alloc, bytes)?;
    match scenario_source(alloc, &scenario) {
        Ok(text) => Ok(text),
        Err(_) => Err(ReadError::OutOfMemory),
    }
}

/// The source of the program that bytes spell.
fn program_text(alloc: Global, bytes: &[u8]) -> Result<String, ReadError>
    ensures { Returns string_bytes result (text_of shown_program (program_in bytes.now)) }
{
    let program = read_program_text(alloc, bytes)?;
    match program_source(alloc, &program) {
        Ok(text) => Ok(text),
        Err(_) => Err(ReadError::OutOfMemory),
    }
}

/// The source of what bytes spell.
fn text_in(alloc: Global, shown: Shown, bytes: &[u8]) -> Result<String, ReadError>
    ensures { Returns string_bytes result (source_in shown bytes.now) }
{
    match shown {
        Shown::Scenario => scenario_text(alloc, bytes),
        Shown::Program => program_text(alloc, bytes),
    }
}

/// Writes the source of what bytes spell, once it is whole.
fn write_source<W: Sink>(
    alloc: Global,
    shown: Shown,
    bytes: &[u8],
    sink: &mut W,
) -> Result<(), ShowFault>
    requires { W.failed sink.old ≡ false }
    ensures { Writes (source_in shown bytes.now) (W.held sink.old) (W.held sink.new) (W.failed sink.new) result }
{
    let text = match text_in(alloc, shown, bytes) {
        Ok(text) => text,
        Err(ReadError::OutOfMemory) => return Err(ShowFault::OutOfMemory),
        Err(ReadError::Bad(bad)) => return Err(ShowFault::Bad(bad)),
    };
    match write_all(sink, text.as_str().as_bytes()) {
        Ok(()) => Ok(()),
        Err(_) => Err(ShowFault::Write),
    }
}

/// Reads a scenario, or a program, as JSON from a source to its end, and writes it to a sink as a source, in the one form in which sources are
/// printed. Nothing is written before the text is whole.
///
/// Neither device has failed before. It fails as `Bad` with the input's first fault, as `OutOfMemory` where an allocation failed, and as `Read`
/// where the source has failed: then nothing was written. It fails as `Write` where the sink has failed: then a front of the text was written.
/// At most 16777217 bytes are read, in at most so many reads, whatever it answers.
pub fn show<S: Source, W: Sink>(
    alloc: Global,
    shown: Shown,
    source: &mut S,
    sink: &mut W,
) -> Result<(), ShowFault>
    requires source_works { S.failed source.old ≡ false }
    requires sink_works { W.failed sink.old ≡ false }
    ensures done { Does shown (record {
      input = S.left source.old;
      before = W.held sink.old;
      after = W.held sink.new;
      source_failed = S.failed source.new;
      sink_failed = W.failed sink.new;
    }) result }
    ensures bounded { S.reads source.new ≤ S.reads source.old + MOST_READ }
{
    match read_all(alloc, source) {
        Ok(bytes) => write_source(alloc, shown, bytes.as_slice(), sink),
        Err(ReadFault::OutOfMemory) => Err(ShowFault::OutOfMemory),
        Err(ReadFault::Device) => Err(ShowFault::Read),
    }
}
