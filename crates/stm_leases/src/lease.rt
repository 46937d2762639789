//! The records of the two tables.
ghost use Rattle.std.specs.Prelude.{◌≡◌};
ghost use Rattle.stm_leases.specs.Due.{due_in};

use crate::tournament::DueAt;
use stm_lists::{ListId, NodeId};

/// A live lease: its time to live, the moment of its last renewal, and the list of its keys.
#[derive(Clone, Copy)]
pub(crate) struct Lease {
    pub ttl: u64,
    pub renewed: u64,
    pub keys: ListId,
}

impl Lease {
    /// When the lease of this id falls due, `None` where that is past the last moment.
    pub fn due_at(&self, id: u64) -> Option<DueAt>
        ensures { result ≡ due_in id self.now }
    {
        let moment = self.renewed.checked_add(self.ttl)?;
        Some(DueAt { moment, id })
    }
}

/// Where an attached key stands: on which lease, and at which node of that lease's list.
#[derive(Clone, Copy)]
pub(crate) struct Attachment {
    pub lease: u64,
    pub node: NodeId,
}
