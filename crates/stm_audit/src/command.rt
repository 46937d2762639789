//! The command `audit` over devices.
ghost use Rattle.std.specs.Prelude.{◌≡◌, ◌≤◌, ◌+◌, false, IfOk};
ghost use Rattle.stm_devices.specs.declared.transfer.TheConstants.{MOST_READ};
ghost use Rattle.stm_explain.specs.Saying.{Reports};
ghost use Rattle.stm_audit.specs.Lines.{audit_text, audit_status};
ghost use Rattle.stm_audit.specs.Command.{misfit, IsMisfit, Prints, Answers, Gives, fault_status, fault_text, Writes, Ends};

use crate::auditing::{Audited, audit};
use crate::lines::{status_of, text_of};
use crate::reading::read_trace;
use crate::trace::Trace;
use std::alloc::{AllocError, Global};
use stm_devices::{ReadFault, Sink, Source, read_all, write_all};
use stm_events::Text;
use stm_explain::Message;
use stm_json::{BadInput, Cause, ReadError};

/// What is printed of an audit, and its status.
#[derive(Drop)]
pub(crate) struct Printed {
    pub(crate) text: Text,
    pub(crate) status: u8,
}

/// Why nothing is printed of a trace.
#[derive(Debug, Drop)]
pub(crate) enum AuditFault {
    /// An allocation failed.
    OutOfMemory,
    /// The trace is bad: its first fault.
    Bad(BadInput),
    /// The trace could not be read.
    Device,
}

/// The fault of keys that no store can have had.
fn misfit(alloc: Global) -> Result<BadInput, AllocError>
    ensures { IfOk result (λ bad. bad ≡ misfit) }
{
    let place = Text::copy_of(alloc, "/0/2")?;
    Ok(BadInput {
        place,
        cause: Cause::Range,
    })
}

/// What is printed of an audit, of a trace that has so many commits.
fn print(alloc: Global, audited: &Audited, commits: u64) -> Result<Printed, AllocError>
    ensures { IfOk result (λ p. (p.text ≡ audit_text audited.now commits) × (p.status ≡ audit_status audited.now)) }
{
    let text = text_of(alloc, audited, commits)?;
    Ok(Printed {
        text: Text::new(text),
        status: status_of(audited),
    })
}

/// What is printed of a trace whose keys no store can have had: nothing.
fn refused(alloc: Global) -> AuditFault
    ensures { IsMisfit result }
{
    match misfit(alloc) {
        Ok(bad) => AuditFault::Bad(bad),
        Err(_) => AuditFault::OutOfMemory,
    }
}

/// What is printed of a trace, or why nothing is.
#[tactic(auto, using(crate::proofs::PrintLemmas::prints_of, crate::proofs::PrintLemmas::prints_none))]
fn judge(alloc: Global, trace: &Trace) -> Result<Printed, AuditFault>
    ensures { Prints trace.now result }
{
    match audit(alloc, trace) {
        Err(_) => Err(AuditFault::OutOfMemory),
        Ok(None) => Err(refused(alloc)),
        Ok(Some(audited)) => match print(alloc, &audited, trace.commits.len() as u64) {
            Ok(printed) => Ok(printed),
            Err(_) => Err(AuditFault::OutOfMemory),
        },
    }
}

/// What is printed of the trace that bytes spell, or why nothing is.
#[tactic(auto, using(crate::proofs::PrintLemmas::answers_of, crate::proofs::PrintLemmas::answers_bad))]
fn printed_of(alloc: Global, bytes: &[u8]) -> Result<Printed, AuditFault>
    ensures { Answers bytes.now result }
{
    match read_trace(alloc, bytes) {
        Ok(trace) => judge(alloc, &trace),
        Err(ReadError::OutOfMemory) => Err(AuditFault::OutOfMemory),
        Err(ReadError::Bad(bad)) => Err(AuditFault::Bad(bad)),
    }
}

/// What is printed of the trace that an input has, or why nothing is.
fn printed_from<S: Source>(alloc: Global, input: &mut S) -> Result<Printed, AuditFault>
    requires { S.failed input.old ≡ false }
    ensures given { Gives (S.left input.old) (S.failed input.new) result }
    ensures bounded { S.reads input.new ≤ S.reads input.old + MOST_READ }
{
    match read_all(alloc, input) {
        Ok(bytes) => printed_of(alloc, bytes.as_slice()),
        Err(ReadFault::OutOfMemory) => Err(AuditFault::OutOfMemory),
        Err(ReadFault::Device) => Err(AuditFault::Device),
    }
}

/// Says why nothing is printed, and gives the status.
fn report<E: Sink>(err: &mut E, fault: &AuditFault) -> u8
    requires { E.failed err.old ≡ false }
    ensures { Reports (fault_status fault.now) (fault_text fault.now) (E.held err.old) (E.held err.new) (E.failed err.new) result }
{
    match fault {
        AuditFault::OutOfMemory => Message::OutOfMemory.report(err),
        AuditFault::Device => Message::Device.report(err),
        AuditFault::Bad(bad) => {
            let begin = "stmrun: bad trace at ";
            Message::Bad { begin, bad }.report(err)
        }
    }
}

/// Writes what is printed, and gives the status.
fn write<W: Sink, E: Sink>(printed: &Printed, out: &mut W, err: &mut E) -> u8
    requires out_works { W.failed out.old ≡ false }
    requires err_works { E.failed err.old ≡ false }
    ensures { Writes printed.now (W.held out.old) (W.held out.new) (W.failed out.new) (E.held err.old) (E.held err.new) (E.failed err.new) result }
{
    match write_all(out, printed.text.as_str().as_bytes()) {
        Ok(()) => printed.status,
        Err(_) => Message::Device.report(err),
    }
}

/// Audits the trace that `input` has, and writes what is found to `out`, whole or not at all but for a failed `out`: a line
/// `["found",COMMIT,ANOMALY,KEY,SEEN,NOW]` for an anomaly that the commit's level allows, `["broken",..]` for one that it promises not to come, and at the end
/// `["commits",N]`, or `["off",COMMIT]`, where the revision of a commit is not the store's.
///
/// Gives the status: 0 where every promise is kept, 1 where one is broken or a revision is off, 2 where the trace is bad, 3 where an allocation or a device
/// but `err` failed. On `err` it says what went wrong: `stmrun: bad trace at PLACE: CAUSE`, `stmrun: out of memory` or `stmrun: device fault`. None of the
/// devices has failed before; that `err` fails changes no status. `input` is read at most 16777217 times.
pub fn audit_to<S: Source, W: Sink, E: Sink>(
    alloc: Global,
    input: &mut S,
    out: &mut W,
    err: &mut E,
) -> u8
    requires input_works { S.failed input.old ≡ false }
    requires out_works { W.failed out.old ≡ false }
    requires err_works { E.failed err.old ≡ false }
    ensures ends { Ends (record {
      input = S.left input.old;
      before = W.held out.old;
      after = W.held out.new;
      source_failed = S.failed input.new;
      sink_failed = W.failed out.new;
    }) (E.held err.old) (E.held err.new) (E.failed err.new) result }
    ensures bounded { S.reads input.new ≤ S.reads input.old + MOST_READ }
{
    match printed_from(alloc, input) {
        Ok(printed) => write(&printed, out, err),
        Err(fault) => report(err, &fault),
    }
}
