//! Copies of the tables.
ghost use Rattle.std.specs.Prelude.{◌≡◌, IfOk};
ghost use Rattle.stm_leases.specs.Copies.{named_entries};

use crate::lease::{Attachment, Lease};
use indexmap::IndexMap;
use std::alloc::AllocError;

/// A copy of the table of live leases.
pub(crate) fn copy_leases(leases: &IndexMap<u64, Lease>) -> Result<IndexMap<u64, Lease>, AllocError>
    ensures { IfOk result (λ copy. copy.entries ≡ leases.now.entries) }
{
    let copy = leases.clone()?;
    Ok(copy)
}

/// A copy of the table of attached keys. Its keys have the same bytes.
pub(crate) fn copy_attached(
    attached: &IndexMap<String, Attachment>,
) -> Result<IndexMap<String, Attachment>, AllocError>
    ensures { IfOk result (λ copy. named_entries copy ≡ named_entries attached.now) }
{
    let copy = attached.clone()?;
    Ok(copy)
}
