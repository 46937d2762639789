//! From one layer to the next.
ghost use Rattle.std.specs.Prelude.{◌≡◌, ◌⊎◌, ◌++◌, ◌∷◌, [], ℕ, ◌<◌, ◌+◌, ◌≤◌, List, true, Contains, IfOk, OnOk, IsErrOf};
ghost use Rattle.std.specs.List.{list_any};
ghost use Rattle.stm_visited.specs.Layers.{Reached as ReachedValue, StandFor, moved_from, moved_from_each, bad_among, on_among, count_among};
ghost use Rattle.stm_visited.specs.declared.halt.Halt.TheVariants.{Spent};

use crate::budget::{Budget, Observer};
use crate::halt::Halt;
use crate::reached::{Reached, reach, share};
use crate::seen::Seen;
use crate::system::System;
use std::alloc::{AllocError, Global};
use stm_history::Sequence;

/// Whether there is one among these.
fn has_some<T>(items: &[T]) -> bool
    ensures { result ≡ list_any (λ x. true) items.now }
{
    !items.is_empty()
}

/// Whether the place that may stand at an index is alike to this one.
fn is_seen_at<S: System>(
    system: &S,
    next: &[Reached<S::Place, S::Move>],
    r: &Reached<S::Place, S::Move>,
    index: usize,
) -> bool
    ensures { result ≡ true → ((it : ReachedValue S.Place S.Move) × Contains next.now it × S.Alike system.now r.now.place it.place) }
{
    if index < next.len() {
        let it = &next[index];
        return system.is_alike(&r.place, &it.place);
    }
    false
}

/// Whether one of these places is alike to this one. It may say no where one is.
fn is_seen<S: System>(
    system: &S,
    seen: &Seen,
    hint: u64,
    next: &[Reached<S::Place, S::Move>],
    r: &Reached<S::Place, S::Move>,
) -> bool
    ensures { result ≡ true → ((it : ReachedValue S.Place S.Move) × Contains next.now it × S.Alike system.now r.now.place it.place) }
{
    match seen.find(hint) {
        Some(index) => is_seen_at(system, next, r, index),
        None => false,
    }
}

/// A place that shares what it holds with the one that may stand at an index.
fn sharing_with<S: System>(
    system: &S,
    next: &[Reached<S::Place, S::Move>],
    r: Reached<S::Place, S::Move>,
    index: usize,
) -> Result<Reached<S::Place, S::Move>, AllocError>
    ensures { IfOk result (λ shared. shared ≡ r) }
{
    if index < next.len() {
        let it = &next[index];
        return share(system, r, it);
    }
    Ok(r)
}

/// A place that shares what it holds with the first of these that holds the same. If there is none, it is going to be the first one.
fn sharing_one<S: System>(
    system: &S,
    seen: &mut Seen,
    next: &[Reached<S::Place, S::Move>],
    r: Reached<S::Place, S::Move>,
) -> Result<Reached<S::Place, S::Move>, AllocError>
    ensures { IfOk result (λ shared. shared ≡ r) }
{
    let hint = system.held_hint(&r.place);
    match seen.find_holder(hint) {
        Some(index) => sharing_with(system, next, r, index),
        None => {
            seen.note_holder(hint, next.len())?;
            Ok(r)
        }
    }
}

/// Adds a place to a layer, unless one that is alike stands there.
fn add<S: System>(
    system: &S,
    seen: &mut Seen,
    next: &mut Vec<Reached<S::Place, S::Move>>,
    r: Reached<S::Place, S::Move>,
) -> Result<(), AllocError>
    ensures { OnOk result ((rule : ℕ) (others : List (ReachedValue S.Place S.Move)) → StandFor S.Place S.Move S.Shown (S.steps system.now rule) next.old.items others
        → StandFor S.Place S.Move S.Shown (S.steps system.now rule) next.new.items (others ++ r ∷ [])) }
{
    let hint = system.hint(&r.place);
    if is_seen(system, seen, hint, next.as_slice(), &r) {
        return Ok(());
    }
    let index = next.len();
    let shared = sharing_one(system, seen, next.as_slice(), r)?;
    next.push(shared)?;
    seen.note(hint, index)?;
    Ok(())
}

/// Adds the places to which one move leads from a place: of the moves those that are enough.
fn add_moved<S: System, O: Observer>(
    alloc: Global,
    system: &S,
    from: &Reached<S::Place, S::Move>,
    seen: &mut Seen,
    next: &mut Vec<Reached<S::Place, S::Move>>,
    budget: &mut Budget<O>,
) -> Result<(), Halt>
    ensures stand { OnOk result ((rule : ℕ) (others : List (ReachedValue S.Place S.Move)) → StandFor S.Place S.Move S.Shown (S.steps system.now rule) next.old.items others
        → StandFor S.Place S.Move S.Shown (S.steps system.now rule) next.new.items (others ++ moved_from (S.steps system.now rule) from.now)) }
    ensures taken { OnOk result ((next.new.items ≡ next.old.items) ⊎ (budget.new.left < budget.old.left)) }
    ensures spent { IsErrOf result Spent → budget.new.left ≡ 0 }
    ensures within { budget.new.left ≤ budget.old.left }
    ensures made { (rule : ℕ) → budget.old.left ≤ budget.new.left + count_among (S.steps system.now rule) 1 (from.now ∷ []) }
{
    let few = system.enough(&from.place)?;
    let choices = few.as_slice();
    for chosen in choices {
        budget.spend()?;
        let r = reach(alloc, system, from, *chosen)?;
        add(system, seen, next, r)?;
    }
    Ok(())
}

/// The layer of no moves: the place where a search starts.
pub fn opening_layer<P: Drop, M: Copy + Drop>(
    alloc: Global,
    start: P,
) -> Result<Vec<Reached<P, M>>, AllocError>
    ensures { IfOk result (λ layer. layer.items ≡ record { place = start; path = [] } ∷ []) }
{
    let mut layer = Vec::new(alloc);
    layer.push(Reached::start(alloc, start))?;
    Ok(layer)
}

/// The layer after this one: of the places that one move leads to the first of those that are alike, in the order of the schedules to them. Of the moves
/// from a place those are made that the system calls enough. Each place of this layer is dropped once it was gone on from.
///
/// `Halt::Spent` says that the budget was used up, and that some move more can be made; `Halt::OutOfMemory` that an allocation failed. No more moves are
/// made than lead from the layer.
pub fn next_layer<S: System, O: Observer>(
    alloc: Global,
    system: &S,
    layer: Vec<Reached<S::Place, S::Move>>,
    budget: &mut Budget<O>,
) -> Result<Vec<Reached<S::Place, S::Move>>, Halt>
    ensures stand { IfOk result (λ next. (rule : ℕ) → StandFor S.Place S.Move S.Shown (S.steps system.now rule) next.items (moved_from_each (S.steps system.now rule) layer.items)) }
    ensures taken { IfOk result (λ next. (next.items ≡ []) ⊎ (budget.new.left < budget.old.left)) }
    ensures spent { IsErrOf result Spent → budget.new.left ≡ 0 }
    ensures within { budget.new.left ≤ budget.old.left }
    ensures made { (rule : ℕ) → budget.old.left ≤ budget.new.left + count_among (S.steps system.now rule) 1 layer.items }
{
    let mut next = Vec::new(alloc);
    let mut seen = Seen::new(alloc);
    for from in layer {
        add_moved(alloc, system, &from, &mut seen, &mut next, budget)?;
    }
    Ok(next)
}

/// The path to the first of these places where a rule is not kept.
pub(crate) fn first_broken<S: System>(
    alloc: Global,
    system: &S,
    rule: usize,
    layer: &[Reached<S::Place, S::Move>],
) -> Result<Option<Sequence<S::Move>>, AllocError>
    ensures { IfOk result (λ path. path ≡ bad_among (S.steps system.now rule) 0 layer.now) }
{
    for r in layer {
        if !system.is_kept(rule, &r.place)? {
            let path = r.path(alloc)?;
            return Ok(Some(path));
        }
    }
    Ok(None)
}

/// Whether a move can be made at one of these places.
pub fn can_go_on<S: System>(
    system: &S,
    layer: &[Reached<S::Place, S::Move>],
) -> Result<bool, AllocError>
    ensures { IfOk result (λ more. (rule : ℕ) → more ≡ on_among (S.steps system.now rule) 1 layer.now) }
{
    for r in layer {
        let all = system.moves(&r.place)?;
        if has_some(all.as_slice()) {
            return Ok(true);
        }
    }
    Ok(false)
}
