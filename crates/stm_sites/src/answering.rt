//! Runs of whole programs.
ghost use Rattle.std.specs.Prelude.{◌≡◌, IfOk};
ghost use Rattle.stm_steps.specs.Meaning.{answered, run_of, run_over};
ghost use Rattle.stm_steps.specs.Outcome.{Stops};
ghost use Rattle.stm_steps.specs.declared.run.Answered.TheVariants.{Ended};

use crate::halt::Halt;
use crate::statements::run_all;
use std::alloc::{AllocError, Global};
use stm_program::Program;
use stm_steps::{Answered, End, Lookup, Session, Stop};

/// The run of a program over a look-up, such as a list of recorded answers: its end, or the first key that
/// it wants and the look-up knows nothing of.
///
/// It is evaluated from its start. It fails only when out of memory.
#[tactic(auto, unfolding(stm_steps::specs::Meaning::run_over))]
pub fn run_answered<L: Lookup>(
    alloc: Global,
    program: &Program,
    lookup: &L,
) -> Result<Answered, AllocError>
    ensures { IfOk result (λ answer. answer ≡ run_over (L.answers lookup.now) program.now.statements) }
{
    let mut session = Session::new(alloc)?;
    match run_all(alloc, lookup, &mut session, program.statements()) {
        Ok(()) => Ok(ended(session, End::Done)),
        Err(Halt::OutOfMemory) => {
            drop(session);
            Err(AllocError)
        }
        Err(Halt::Stopped(at)) => Ok(stopped(session, at.stop)),
    }
}

/// What a run that stopped answers. It allocates nothing.
fn stopped(session: Session, stop: Stop) -> Answered
    ensures { result ≡ answered (Stops stop session) }
{
    match stop {
        Stop::Aborted(text) => ended(session, End::Aborted(text)),
        Stop::Faulted(fault) => ended(session, End::Faulted(fault)),
        Stop::Wants(key) => {
            let trace = session.into_trace();
            Answered::Wants { key, trace }
        }
    }
}

/// What a run that came to this end answers. It allocates nothing.
fn ended(session: Session, end: End) -> Answered
    ensures { result ≡ Ended (run_of end session) }
{
    Answered::Ended(session.into_run(end))
}
