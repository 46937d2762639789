//! Copies of the parts of a key store.
ghost use Rattle.std.specs.Prelude.{◌≡◌, List, ℕ, IfOk};
ghost use Rattle.indexmap.specs.IndexMap.{get_by_text};
ghost use Rattle.stm_keys.specs.Chains.{versions_in, names_of};

use crate::chains::{Chains, Revisions};
use std::alloc::AllocError;

/// A copy of the revisions. Their keys are shared, and texts that are short take no memory.
pub(crate) fn copy_revisions(revisions: &Revisions) -> Result<Revisions, AllocError>
    ensures { IfOk result (λ copy. copy.items ≡ revisions.now.items) }
{
    let copy = revisions.clone()?;
    Ok(copy)
}

/// A copy of the chains, in their order.
pub(crate) fn copy_chains(chains: &Chains) -> Result<Chains, AllocError>
    ensures names { IfOk result (λ copy. names_of copy ≡ names_of chains.now) }
    ensures versions { IfOk result (λ copy. (key : List ℕ) → versions_in (get_by_text copy key) ≡ versions_in (get_by_text chains.now key)) }
{
    let copy = chains.clone()?;
    Ok(copy)
}
