//! Runs of programs alone.
ghost use Rattle.std.specs.Prelude.{◌≡◌, IfOk};
ghost use Rattle.stm_steps.specs.Meaning.{run_over};
ghost use Rattle.stm_steps.specs.States.{state_answers};
ghost use Rattle.stm_steps.specs.declared.run.Answered.TheVariants.{Ended};

use std::alloc::{AllocError, Global};
use stm_program::Program;
use stm_sites::run_answered;
use stm_steps::{Answered, Run, State};

/// The run of a program alone on a state.
///
/// It fails only when out of memory.
pub fn run_alone(alloc: Global, program: &Program, state: &State) -> Result<Run, AllocError>
    ensures { IfOk result (λ run. run_over (state_answers state.now) program.now.statements ≡ Ended run) }
{
    match run_answered(alloc, program, state)? {
        Answered::Ended(run) => Ok(run),
        Answered::Wants { .. } => unreachable!(),
    }
}
