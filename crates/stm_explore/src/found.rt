//! The outcomes that were found, each once.
ghost use Rattle.std.specs.Prelude.{◌↔◌, [], ◌∷◌, IsTrue, Contains, OnOk};
ghost use Rattle.stm_explore.specs.Gathering.{Gathers, HasAdded};

use crate::places::ReportedPlace;
use std::alloc::{AllocError, Global};
use stm_history::Sequence;
use stm_schedules::{Move, Outcome};
use stm_visited::Reached;

/// Whether an outcome was found before.
fn is_found(found: &[Outcome], it: &Outcome) -> bool
    ensures { IsTrue result ↔ Contains found.now it.now }
{
    found.contains(it)
}

/// Adds an outcome, with the path to its place, unless it was found before.
pub(crate) fn add(
    alloc: Global,
    found: &mut Vec<Outcome>,
    schedules: &mut Vec<Sequence<Move>>,
    it: Outcome,
    r: &Reached<ReportedPlace, Move>,
) -> Result<(), AllocError>
    ensures gathers { OnOk result (Gathers (it ∷ []) found.old.items found.new.items) }
    ensures added { OnOk result (HasAdded [] it r.now.path found.old.items found.new.items schedules.old.items schedules.new.items) }
{
    if is_found(found.as_slice(), &it) {
        return Ok(());
    }
    let path = r.path(alloc)?;
    found.push(it)?;
    schedules.push(path)?;
    Ok(())
}
