//! From the bytes of a source to the report in a sink.
ghost use Rattle.std.specs.Prelude.{◌≡◌, ◌≤◌, ◌+◌, false};
ghost use Rattle.stm_devices.specs.declared.transfer.TheConstants.{MOST_READ};
ghost use Rattle.stm_report.specs.Script.{Does};

use crate::format::Format;
use crate::format_script::script_as;
use std::alloc::Global;
use stm_devices::{Sink, Source};
use stm_texts::BadInput;
use thiserror::Error;

/// Why a script failed.
#[derive(Debug, Drop, Error)]
pub enum ScriptFault {
    /// A growth was refused.
    #[error("out of memory")]
    OutOfMemory,
    /// The input is no scenario: its first fault.
    #[error("bad scenario {0}")]
    Bad(BadInput),
    /// The source failed.
    #[error("device fault")]
    Read,
    /// The sink failed.
    #[error("device fault")]
    Write,
}

/// Reads a scenario from a source to its end, runs it over an empty store, and writes the report of the run, in UTF-8, to a
/// sink. Nothing is written before the report is whole.
///
/// Neither device has failed before. It fails as `Bad` with the scenario's first fault, as `OutOfMemory` where a
/// growth was refused, and as `Read` where the source has failed: then nothing was written. It fails as `Write`
/// where the sink has failed: then a front of the report was written. At most 16777217 bytes are read, in at most so
/// many reads, whatever it answers.
pub fn script<S: Source, W: Sink>(
    alloc: Global,
    source: &mut S,
    sink: &mut W,
) -> Result<(), ScriptFault>
    requires source_works { S.failed source.old ≡ false }
    requires sink_works { W.failed sink.old ≡ false }
    ensures done { Does (record {
      input = S.left source.old;
      before = W.held sink.old;
      after = W.held sink.new;
      source_failed = S.failed source.new;
      sink_failed = W.failed sink.new;
    }) result }
    ensures bounded { S.reads source.new ≤ S.reads source.old + MOST_READ }
{
    script_as(alloc, Format::Lines, &[], source, sink)
}
