//! What the writes of a run change in a state.
ghost use Rattle.std.specs.Prelude.{◌≡◌, IfOk};
ghost use Rattle.stm_meaning.specs.Writes.{changes, effect};
ghost use Rattle.stm_steps.specs.States.{is_present};

use std::alloc::{AllocError, Global};
use stm_program::{Write, latest_writes};
use stm_steps::State;

/// Whether a write changes something: all but the deletion of an absent key do.
fn changes_state(write: &Write, state: &State) -> bool
    ensures { result ≡ changes (is_present state.now) write.now }
{
    match write {
        Write::Put { .. } => true,
        Write::Del { key } => state.get(key.as_str()).is_some(),
    }
}

/// The effect of writes on a state: for each key, in the order of first writes, its last write. Deletions of
/// absent keys are left out.
///
/// It fails only when out of memory.
#[tactic(auto, unfolding(crate::specs::Writes::effect))]
pub fn apply_alone(alloc: Global, writes: &[Write], state: &State) -> Result<Vec<Write>, AllocError>
    ensures { IfOk result (λ effects. effects.items ≡ effect (is_present state.now) writes.now) }
{
    let mut effects = latest_writes(alloc, writes)?.into_vec();
    effects.retain(|write| changes_state(write, state));
    Ok(effects)
}
