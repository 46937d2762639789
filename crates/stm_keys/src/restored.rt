//! The keys of a store that has dropped its revisions.
ghost use Rattle.std.specs.Prelude.{◌≡◌, ◌++◌, ◌∷◌, [], List, ℕ, Some, None, true, bytes_eq, if◌then◌else◌, IfOk, OnOk};
ghost use Rattle.std.specs.Cmp.Lexicographic.{slice_cmp};
ghost use Rattle.std.specs.FinMap.{find, is_sorted};
ghost use Rattle.std.specs.Map.{keys_of};
ghost use Rattle.std.specs.Ordering.{nat_cmp};
ghost use Rattle.indexmap.specs.IndexMap.{get_by_text};
ghost use Rattle.stm_keys.specs.Chains.{versions_in, names_of};

use crate::chain::Chain;
use crate::chains::Chains;
use indexmap::IndexMap;
use std::alloc::{AllocError, Global};
use stm_history::{KeyState, Text};

/// A copy of a state.
fn copy_of(state: &KeyState) -> Result<KeyState, AllocError>
    ensures { IfOk result (λ copy. copy ≡ state.now) }
{
    let copy = state.clone()?;
    Ok(copy)
}

/// Adds the chain of a key that was in this state before any revision.
fn add_opened(
    alloc: Global,
    chains: &mut Chains,
    key: &Text,
    state: &KeyState,
) -> Result<(), AllocError>
    requires { get_by_text chains.old key.now ≡ None }
    ensures versions { OnOk result ((k : List ℕ) → versions_in (get_by_text chains.new k) ≡
        (if bytes_eq key.now k then record { before = Some state.now; numbers = [] } else versions_in (get_by_text chains.old k))) }
    ensures names { OnOk result (names_of chains.new ≡ names_of chains.old ++ key.now ∷ []) }
{
    let name = String::from_str(alloc, key.as_str())?;
    let copy = copy_of(state)?;
    let chain = Chain::opened(alloc, copy);
    chains.insert(name, chain)?;
    Ok(())
}

/// The chains of these keys, each of which was in its state before any revision.
pub(crate) fn opened_chains(
    alloc: Global,
    states: &[(Text, KeyState)],
) -> Result<Chains, AllocError>
    requires { is_sorted (slice_cmp nat_cmp) states.now ≡ true }
    ensures versions { IfOk result (λ chains. (key : List ℕ) → versions_in (get_by_text chains key)
        ≡ record { before = find (slice_cmp nat_cmp) key states.now; numbers = [] }) }
    ensures names { IfOk result (λ chains. names_of chains ≡ keys_of states.now) }
{
    let mut chains = IndexMap::new(alloc);
    for entry in states {
        add_opened(alloc, &mut chains, &entry.0, &entry.1)?;
    }
    Ok(chains)
}
