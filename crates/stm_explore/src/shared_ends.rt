//! What is known of the ends of runners, as places share it.
ghost use Rattle.std.specs.Prelude.{◌≡◌, true, IfOk};
ghost use Rattle.stm_schedules.specs.Outcomes.{Ends, after_reported};

use crate::ends::{copy_of_ends, note_end};
use std::alloc::{AllocError, Global};
use std::marker::Model;
use std::sync::Arc;
use stm_history::Sequence;
use stm_schedules::RunnerEnd;
use stm_world::{Denied, Reply};

/// What is known of the ends of runners. Few moves end a run: places before and after the others share it.
///
/// Contracts see the list.
#[derive(Drop)]
pub(crate) struct SharedEnds {
    ends: Arc<Sequence<Option<RunnerEnd>>>,
}

impl Model for SharedEnds {
    ghost use Rattle.stm_schedules.specs.Outcomes.{Ends};

    ghost Value = { Ends };

    ghost view = { λ s. s.ends.value };
}

/// Whether a reply or a refusal says nothing of the ends.
fn says_nothing(reported: &Result<Reply, Denied>) -> bool
    ensures { result ≡ true → (ends : Ends) → after_reported reported.now ends ≡ ends }
{
    match reported {
        Err(_) => true,
        Ok(Reply::Started { .. }) => false,
        Ok(Reply::Committed { .. }) => false,
        Ok(Reply::GaveUp { .. }) => false,
        Ok(Reply::Aborted { .. }) => false,
        Ok(Reply::Faulted { .. }) => false,
        Ok(Reply::Ended { .. }) => false,
        Ok(_) => true,
    }
}

impl SharedEnds {
    /// These ends, for places to share.
    fn of(alloc: Global, ends: Vec<Option<RunnerEnd>>) -> Result<SharedEnds, AllocError>
        ensures { IfOk result (λ shared. shared ≡ ends.items) }
    {
        let ends = Arc::new(alloc, Sequence::of(ends))?;
        Ok(SharedEnds { ends })
    }

    /// A copy of these ends, for places to share.
    pub(crate) fn copy_of(
        alloc: Global,
        ends: &[Option<RunnerEnd>],
    ) -> Result<SharedEnds, AllocError>
        ensures { IfOk result (λ shared. shared ≡ ends.now) }
    {
        let copy = copy_of_ends(alloc, ends)?;
        SharedEnds::of(alloc, copy)
    }

    /// The ends, by the runners' numbers.
    pub(crate) fn as_slice(&self) -> &[Option<RunnerEnd>]
        ensures { result.now ≡ self.now }
    {
        self.ends.as_slice()
    }

    /// The same once more.
    pub(crate) fn share(&self) -> Result<SharedEnds, AllocError>
        ensures { IfOk result (λ shared. shared ≡ self.now) }
    {
        let ends = self.ends.clone()?;
        Ok(SharedEnds { ends })
    }

    /// What is known after a reply or a refusal.
    pub(crate) fn after(
        &self,
        alloc: Global,
        reported: &Result<Reply, Denied>,
    ) -> Result<SharedEnds, AllocError>
        ensures { IfOk result (λ shared. shared ≡ after_reported reported.now self.now) }
    {
        if says_nothing(reported) {
            return self.share();
        }
        let mut ends = copy_of_ends(alloc, self.as_slice())?;
        note_end(&mut ends, reported)?;
        SharedEnds::of(alloc, ends)
    }
}
