//! The fault of a program's run.
ghost use Rattle.std.specs.Prelude.{◌≡◌, IfOk};
ghost use Rattle.stm_sites.specs.Found.{fault_of, fault_stopped};

use crate::halt::{Halt, StopAt};
use crate::site::Site;
use crate::statements::run_all;
use std::alloc::{AllocError, Global};
use stm_program::Program;
use stm_steps::{Fault, Lookup, Session, Stop};

/// The fault by which a run ends.
#[derive(Debug, Drop)]
pub struct FoundFault {
    /// The fault.
    pub fault: Fault,
    /// Where the run comes to it.
    pub site: Site,
}

/// The fault of a run that stops so.
fn fault_at(at: StopAt) -> Option<FoundFault>
    ensures { result ≡ fault_stopped at.site at.stop }
{
    let StopAt { stop, site } = at;
    match stop {
        Stop::Faulted(fault) => Some(FoundFault { fault, site }),
        Stop::Aborted(_) | Stop::Wants(_) => None,
    }
}

/// The fault by which the run of a program over a look-up ends, and where it comes to it: at the first statement that, run after those before it,
/// stops the run, and in it at the innermost node. `None` where the run comes to its last statement, aborts, or wants a key of which the
/// look-up knows nothing.
///
/// It fails only when out of memory.
pub fn find_fault<L: Lookup>(
    alloc: Global,
    program: &Program,
    lookup: &L,
) -> Result<Option<FoundFault>, AllocError>
    ensures { IfOk result (λ found. found ≡ fault_of (L.answers lookup.now) program.now.statements) }
{
    let mut session = Session::new(alloc)?;
    let ran = run_all(alloc, lookup, &mut session, program.statements());
    drop(session);
    match ran {
        Ok(()) => Ok(None),
        Err(Halt::OutOfMemory) => Err(AllocError),
        Err(Halt::Stopped(at)) => Ok(fault_at(at)),
    }
}
