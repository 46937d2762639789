//! The last write of each key.
ghost use Rattle.std.specs.Prelude.{◌≡◌, IfOk, map};
ghost use Rattle.std.specs.Option.{option_copied};
ghost use Rattle.indexmap.specs.IndexMap.{values};
ghost use Rattle.stm_program.specs.Writes.{last_write as last_of_key, latest_writes as latest_of_each};

use indexmap::IndexMap;
use std::alloc::{AllocError, Global};
use stm_history::{Change as Write, Sequence};

/// Each key that is written, with its last write, in the order of first writes.
type Latest<'a> = IndexMap<&'a str, &'a Write>;

/// The last write of a key, searched for from the end.
#[tactic(auto, unfolding(crate::specs::Writes::last_write))]
pub fn last_write<'a>(writes: &'a [Write], key: &str) -> Option<&'a Write>
    ensures { option_copied result ≡ last_of_key key.now writes.now }
{
    writes.iter().rev().find(|write| write.key() == key)
}

/// For each key, in the order of first writes, its last write. The work is one look-up for each write.
///
/// It fails only when out of memory.
pub fn latest_writes(alloc: Global, writes: &[Write]) -> Result<Sequence<Write>, AllocError>
    ensures { IfOk result (λ latest. latest ≡ latest_of_each writes.now) }
{
    let mut latest: Latest = IndexMap::new(alloc);
    for write in writes {
        latest.insert(write.key(), write)?;
    }
    copy_latest(alloc, &latest)
}

/// Copies of the writes of a table, in its order.
fn copy_latest(alloc: Global, latest: &Latest) -> Result<Sequence<Write>, AllocError>
    ensures { IfOk result (λ copies. copies ≡ map (λ w. w.now) (values latest.now)) }
{
    let mut copies = Vec::with_capacity(alloc, latest.len())?;
    for &write in latest.values() {
        copies.push(write.clone()?)?;
    }
    Ok(Sequence::of(copies))
}
