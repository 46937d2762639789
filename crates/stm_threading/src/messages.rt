//! What the command `threads` says of a fault, and its statuses.
ghost use Rattle.std.specs.Prelude.{◌≡◌, ◌++◌, false, string_bytes};
ghost use Rattle.stm_explain.specs.Saying.{status_of, text_of, Reports};
ghost use Rattle.stm_threading.specs.Threading.{fault_status, fault_message, Explains, SaysOf, SaysMoreOf, SaysBy};

use crate::running::JobsFault;
use std::alloc::Global;
use stm_devices::Sink;
use stm_explain::{Input, KeptSource, Message};

/// What is said of a fault.
fn message(fault: &JobsFault) -> Message<'_>
    ensures status { status_of result ≡ fault_status fault.now }
    ensures text { text_of result ≡ fault_message fault.now }
{
    match fault {
        JobsFault::Bad(bad) => Message::Bad {
            begin: "stmrun: bad scenario at ",
            bad,
        },
        JobsFault::OutOfMemory => Message::OutOfMemory,
        JobsFault::Read | JobsFault::Write => Message::Device,
        JobsFault::Spawn => Message::NoThread,
        JobsFault::Audit(job) => Message::Audit { job: *job },
    }
}

/// Says what went wrong, and returns the status. Takes no memory.
pub(crate) fn report_fault<E: Sink>(err: &mut E, fault: &JobsFault) -> u8
    requires { E.failed err.old ≡ false }
    ensures { SaysOf (E.held err.old) (E.held err.new) (E.failed err.new) fault.now result }
{
    message(fault).report(err)
}

/// The explanation of what is wrong with a scenario of jobs; none of another fault.
fn explanation<S>(alloc: Global, input: &KeptSource<'_, S>, fault: &JobsFault) -> String
    ensures { Explains input.now.name.now input.now.bytes.items fault.now (string_bytes result) }
{
    match fault {
        JobsFault::Bad(bad) => input.explanation(alloc, Input::Jobs, bad),
        _ => String::new(alloc),
    }
}

/// Says what went wrong and more after it, and returns the status.
fn report_with<E: Sink>(err: &mut E, fault: &JobsFault, more: &str) -> u8
    requires { E.failed err.old ≡ false }
    ensures { Reports (fault_status fault.now) (fault_message fault.now ++ more.now) (E.held err.old) (E.held err.new) (E.failed err.new) result }
{
    message(fault).report_with(err, more)
}

/// Says what went wrong with the jobs of an input, explains it, and gives the status.
fn report_explained<S, E: Sink>(
    alloc: Global,
    input: &KeptSource<'_, S>,
    fault: &JobsFault,
    err: &mut E,
) -> u8
    requires { E.failed err.old ≡ false }
    ensures { SaysMoreOf input.now.name.now input.now.bytes.items (E.held err.old) (E.held err.new) (E.failed err.new) fault.now result }
{
    let more = explanation(alloc, input, fault);
    report_with(err, fault, more.as_str())
}

/// Says what went wrong with the jobs of an input, explains it where it is to be explained, and gives the status.
pub(crate) fn report_by<S, E: Sink>(
    alloc: Global,
    explain: bool,
    input: &KeptSource<'_, S>,
    fault: &JobsFault,
    err: &mut E,
) -> u8
    requires { E.failed err.old ≡ false }
    ensures { SaysBy explain input.now.name.now input.now.bytes.items (E.held err.old) (E.held err.new) (E.failed err.new) fault.now result }
{
    if !explain {
        return report_fault(err, fault);
    }
    report_explained(alloc, input, fault, err)
}
