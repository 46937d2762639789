//! The keys that are present in a store.
ghost use Rattle.std.specs.Prelude.{◌≡◌, map, string_bytes, IfOk};
ghost use Rattle.std.specs.Map.{keys_of};
ghost use Rattle.stm_keys.specs.Keys.{ListsPresent};
ghost use Rattle.stm_txn.specs.PresentKeys.{keys_present};
ghost use Rattle.stm_journal.specs.PresentKeys.{ArePresent};

use std::alloc::{AllocError, Global};
use stm_keys::Keys;

/// Copies of the keys that are present, in the order of the store.
fn listed_keys(alloc: Global, keys: &Keys) -> Result<Vec<String>, AllocError>
    ensures copies { IfOk result (λ listed. map string_bytes listed.items ≡ keys_of keys.now.present) }
    ensures present { ListsPresent keys.now.history keys.now.present }
{
    let mut listed = Vec::with_capacity(alloc, keys.len())?;
    for index in 0..keys.len() {
        let (key, _) = keys.at(index);
        listed.push(String::from_str(alloc, key)?)?;
    }
    Ok(listed)
}

/// The keys that are present, ascending by bytes.
///
/// They are copied and sorted once. Most stand in ascending runs, as a scenario put them, which the sort merges. It fails only where an allocation failed.
pub fn present_keys(alloc: Global, keys: &Keys) -> Result<Vec<String>, AllocError>
    ensures present { IfOk result (λ present. ArePresent keys.now.history (map string_bytes present.items)) }
    ensures computed { IfOk result (λ present. map string_bytes present.items ≡ keys_present keys.now.history) }
{
    let mut present = listed_keys(alloc, keys)?;
    present.sort()?;
    Ok(present)
}
