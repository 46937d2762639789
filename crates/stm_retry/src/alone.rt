//! Programs that are run alone on the keys of a store.
ghost use Rattle.std.specs.Prelude.{◌≡◌, IfOk};
ghost use Rattle.stm_compile.specs.Answers.{state_now};
ghost use Rattle.stm_meaning.specs.Meaning.{run_over};
ghost use Rattle.stm_steps.specs.declared.run.Answered.TheVariants.{Ended};

use std::alloc::{AllocError, Global};
use stm_keys::Keys;
use stm_meaning::{Answered, Lookup, Run, run_answered};
use stm_program::Program;

/// The keys of a store as they are now.
#[derive(Clone, Copy)]
pub struct KeysNow<'a> {
    /// The keys, of which a look-up sees the newest state.
    pub keys: &'a Keys,
}

impl Lookup for KeysNow<'_> {
    ghost use Rattle.stm_compile.specs.Answers.{state_now};

    ghost answers = { λ look. state_now look.keys.now.history };

    fn value(&self, key: &str) -> Option<&str> {
        match self.keys.get(key) {
            None => Some(""),
            Some(state) => Some(state.value.as_str()),
        }
    }

    fn mod_rev(&self, key: &str) -> Option<u64> {
        match self.keys.get(key) {
            None => Some(0),
            Some(state) => Some(state.mod_rev),
        }
    }
}

/// The run of a program alone on the keys of a store as they are now. It looks up those that it reads, and no others.
///
/// Out of memory is its only refusal.
pub fn run_now(alloc: Global, program: &Program, keys: &Keys) -> Result<Run, AllocError>
    ensures { IfOk result (λ run. run_over (state_now keys.now.history) program.now.statements ≡ Ended run) }
{
    match run_answered(alloc, program, &KeysNow { keys })? {
        Answered::Ended(run) => Ok(run),
        Answered::Wants { .. } => unreachable!(),
    }
}
