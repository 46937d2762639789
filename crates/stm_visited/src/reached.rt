//! A place, with the moves by which it was reached.
ghost use Rattle.std.specs.Prelude.{◌≡◌, ℕ, [], ◌∷◌, ◌++◌, IfOk};
ghost use Rattle.stm_visited.specs.Layers.{reached_by};

use crate::system::System;
use std::alloc::{AllocError, Global};
use std::marker::Model;
use stm_history::Sequence;

/// A place, with the moves by which it was reached.
#[derive(Drop)]
pub struct Reached<P, M> {
    pub(crate) place: P,
    path: Vec<M>,
}

impl<P, M> Model for Reached<P, M> {
    ghost use Rattle.stm_visited.specs.Layers.{Reached as ReachedValue};

    ghost Value = { ReachedValue P M };

    ghost view = { λ r. record { place = r.place; path = r.path.items } };
}

impl<P, M> Reached<P, M> {
    /// The place.
    pub fn place(&self) -> &P
        ensures { result.now ≡ self.now.place }
    {
        &self.place
    }
}

impl<P, M: Copy + Drop> Reached<P, M> {
    /// The place where a search starts.
    pub(crate) fn start(alloc: Global, place: P) -> Reached<P, M>
        ensures { result ≡ record { place = place; path = [] } }
    {
        Reached {
            place,
            path: Vec::new(alloc),
        }
    }

    /// The moves by which it was reached.
    pub fn path(&self, alloc: Global) -> Result<Sequence<M>, AllocError>
        ensures { IfOk result (λ path. path ≡ self.now.path) }
    {
        let path = Vec::from_slice(alloc, self.path.as_slice())?;
        Ok(Sequence::of(path))
    }
}

/// A path with one move more. It takes no more memory than its moves need.
fn longer_path<M: Copy + Drop>(alloc: Global, path: &[M], chosen: M) -> Result<Vec<M>, AllocError>
    ensures { IfOk result (λ longer. longer.items ≡ path.now ++ chosen ∷ []) }
{
    let mut longer = Vec::with_capacity(alloc, path.len().saturating_add(1))?;
    longer.extend_from_slice(path)?;
    longer.push(chosen)?;
    Ok(longer)
}

/// Where one move more leads to.
pub(crate) fn reach<S: System>(
    alloc: Global,
    system: &S,
    from: &Reached<S::Place, S::Move>,
    chosen: S::Move,
) -> Result<Reached<S::Place, S::Move>, AllocError>
    ensures { IfOk result (λ r. (rule : ℕ) → r ≡ reached_by (S.steps system.now rule) from.now chosen) }
{
    let path = longer_path(alloc, from.path.as_slice(), chosen)?;
    let place = system.moved(&from.place, chosen)?;
    Ok(Reached { place, path })
}

/// The same, where the place shares what it holds with another one that holds the same.
pub(crate) fn share<S: System>(
    system: &S,
    r: Reached<S::Place, S::Move>,
    other: &Reached<S::Place, S::Move>,
) -> Result<Reached<S::Place, S::Move>, AllocError>
    ensures { IfOk result (λ shared. shared ≡ r) }
{
    let Reached { place, path } = r;
    let place = system.sharing(place, &other.place)?;
    Ok(Reached { place, path })
}
