//! What an outcome shows of a world.
ghost use Rattle.std.specs.Prelude.{◌≡◌, Some, map, string_bytes, IfOk};
ghost use Rattle.stm_history.specs.History.{key_now, value_of};
ghost use Rattle.stm_schedules.specs.Outcomes.{state_shown, shown};

use crate::ends::known_ends;
use std::alloc::{AllocError, Global};
use stm_history::{Sequence, Text};
use stm_journal::present_keys;
use stm_keys::Keys;
use stm_retry::SharedWorld;
use stm_schedules::{KeyValue, Outcome, RunnerEnd};

/// A key with the value that it has.
fn key_value(alloc: Global, keys: &Keys, key: &str) -> Result<KeyValue, AllocError>
    ensures { IfOk result (λ shown. shown ≡ record { key = key.now; value = value_of (key_now keys.now.history key.now) }) }
{
    let copy = Text::copy_of(alloc, key)?;
    let value = match keys.get(key) {
        None => Text::copy_of(alloc, "")?,
        Some(found) => found.value.clone()?,
    };
    Ok(KeyValue { key: copy, value })
}

/// The keys that are present, ascending by bytes, each with its value.
fn state_shown(alloc: Global, keys: &Keys) -> Result<Sequence<KeyValue>, AllocError>
    ensures { IfOk result (λ state. state ≡ state_shown keys.now.history) }
{
    let present = present_keys(alloc, keys)?;
    let mut state = Vec::with_capacity(alloc, present.len())?;
    for key in &present {
        state.push(key_value(alloc, keys, key.as_str())?)?;
    }
    Ok(Sequence::of(state))
}

/// The outcome at a place where no move can be made.
pub(crate) fn outcome_of(
    alloc: Global,
    world: &SharedWorld,
    ends: &[Option<RunnerEnd>],
) -> Result<Outcome, AllocError>
    ensures { IfOk result (λ it. it ≡ shown world.now ends.now) }
{
    let state = state_shown(alloc, world.store().keys())?;
    let ends = known_ends(alloc, ends)?;
    Ok(Outcome { state, ends })
}
