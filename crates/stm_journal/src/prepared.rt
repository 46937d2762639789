//! What a commit needs beside its attempt.
ghost use Rattle.std.specs.Prelude.{◌≡◌, IfOk};
ghost use Rattle.stm_attempt.specs.ReadyRun.{IsRunOnItsAnswers};
ghost use Rattle.stm_journal.specs.Causes.{cause_of};

use crate::causes::{Cause, find_cause};
use crate::copying::copy_of;
use crate::faults::names_empty_key;
use std::alloc::{AllocError, Global};
use std::marker::Model;
use stm_attempt::Ready;
use stm_txn::Store;

/// An attempt that is ready, with what its commit needs beside it: whether the commit names an empty key. Contracts see the attempt.
///
/// It is made without the journal. One that is locked then has nothing to copy: the writes are moved into its store, and the rest into its entry.
pub struct Prepared {
    ready: Ready,
    has_empty: bool,
}

impl Drop for Prepared {
    fn drop(self) {
        let Prepared {
            ready: _,
            has_empty: _,
        } = self;
    }
}

impl Model for Prepared {
    ghost use Rattle.std.specs.Coded.{codes};
    ghost use Rattle.stm_program.specs.Coding.{coded_program};
    ghost use Rattle.stm_attempt.specs.ReadyRun.{ReadyRun};
    ghost use Rattle.stm_journal.specs.Prepared.{IsPrepared};

    ghost Value = { ReadyRun };

    ghost coded = { Prim.hlevel (codes, coded_program) };

    ghost view = { λ p. p.ready };

    ghost invariant = { λ p. IsPrepared p.ready p.has_empty };
}

impl Prepared {
    /// Why a store, as it is now, turns its commit down before anything is written. It takes no memory.
    ///
    /// The attempt's type says that it is a run on its answers.
    pub(crate) fn find_cause(&self, store: &Store) -> Option<Cause>
        ensures cause { result ≡ cause_of store.now.standing self.now }
        ensures run { IsRunOnItsAnswers self.now }
    {
        find_cause(store, self.has_empty, &self.ready)
    }

    /// The attempt.
    pub(crate) fn attempt(&self) -> &Ready
        ensures { result.now ≡ self.now }
    {
        &self.ready
    }

    /// The attempt.
    pub(crate) fn into_attempt(self) -> Ready
        ensures { result ≡ self }
    {
        let Prepared {
            ready,
            has_empty: _,
        } = self;
        ready
    }
}

/// Prepares the commit of an attempt. It takes no memory.
pub fn prepare(ready: Ready) -> Prepared
    ensures { result ≡ ready }
{
    // (the attempt's type says that it is a run on its answers)
    let _is_run = ready.answers.as_slice();
    let has_empty = names_empty_key(&ready);
    Prepared { ready, has_empty }
}

/// Prepares the commit of a copy of an attempt. Out of memory is the only refusal.
pub(crate) fn prepare_copy(alloc: Global, ready: &Ready) -> Result<Prepared, AllocError>
    ensures prepared { IfOk result (λ prepared. prepared ≡ ready.now) }
    ensures run { IsRunOnItsAnswers ready.now }
{
    // (the attempt's type says that it is a run on its answers)
    let _is_run = ready.answers.as_slice();
    let copy = copy_of(alloc, ready)?;
    Ok(prepare(copy))
}
