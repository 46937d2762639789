//! What is said of a source that is not compiled.
ghost use Rattle.std.specs.Prelude.{◌≡◌, false, IfOk, string_bytes};
ghost use Rattle.stm_explain.specs.Saying.{Reports};
ghost use Rattle.stm_compiling.specs.Faults.{fault_status, fault_text, place_of, wrong_at, wrong_text};

use std::alloc::Global;
use stm_devices::Sink;
use stm_explain::{Message, Said, write_text};
use stm_history::Text;
use stm_source::BadSource;
use stm_tokens::{Position, position_of};

/// Why a source is not compiled.
#[derive(Drop)]
pub(crate) enum CompileFault {
    /// An allocation failed.
    OutOfMemory,
    /// The source is bad: what is said of it.
    Bad(Text),
    /// The source could not be read.
    Device,
}

/// Where a byte of a source stands; behind the last one, where the source has no such byte.
pub(crate) fn position_in(source: &[u8], at: usize) -> Position
    ensures line { result.line ≡ (place_of source.now at).0 }
    ensures column { result.column ≡ (place_of source.now at).1 }
{
    if at > source.len() {
        return position_of(source, source.len());
    }
    position_of(source, at)
}

/// The line that says which cause stands where.
fn wrong_at(alloc: Global, position: Position, cause: &str) -> Said
    ensures { IfOk result (λ line. string_bytes line ≡ wrong_at position.line position.column cause.now) }
{
    let line = position.line;
    let column = position.column;
    format!(in alloc; "stmrun: bad source at {line}:{column}: {cause}\n")
}

/// The line that says what is wrong with a source, and where.
pub(crate) fn wrong_line(alloc: Global, source: &[u8], bad: BadSource) -> Said
    ensures { IfOk result (λ line. string_bytes line ≡ wrong_text (place_of source.now bad.at) bad.cause) }
{
    wrong_at(alloc, position_in(source, bad.at), bad.cause.name())
}

/// Says why a source is not compiled, and gives the status.
pub(crate) fn report<E: Sink>(err: &mut E, fault: &CompileFault) -> u8
    requires { E.failed err.old ≡ false }
    ensures { Reports (fault_status fault.now) (fault_text fault.now) (E.held err.old) (E.held err.new) (E.failed err.new) result }
{
    match fault {
        CompileFault::OutOfMemory => Message::OutOfMemory.report(err),
        CompileFault::Device => Message::Device.report(err),
        CompileFault::Bad(text) => say(err, text.as_str(), 2),
    }
}

/// Says a text, and gives a status, whether it was said or not.
pub(crate) fn say<E: Sink>(err: &mut E, text: &str, status: u8) -> u8
    requires { E.failed err.old ≡ false }
    ensures { Reports status text.now (E.held err.old) (E.held err.new) (E.failed err.new) result }
{
    let _ = write_text(err, text);
    status
}
