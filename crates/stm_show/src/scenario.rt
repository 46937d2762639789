//! Scenarios.
ghost use Rattle.std.specs.Prelude.{◌≡◌, ◌++◌, IfOk, OnOk, string_bytes};
ghost use Rattle.stm_show.specs.Scenario.{shown_limit, shown_opening, shown_scenario};

use crate::events::{push_events, push_numbered};
use std::alloc::{AllocError, Global};
use stm_outcome::MOST_OPERATIONS;
use stm_texts::{Opening, Scenario};

/// Adds the limit of a store, where it is not the highest.
fn push_limit(out: &mut String, operations: usize) -> Result<(), AllocError>
    ensures { OnOk result (string_bytes out.new ≡ string_bytes out.old ++ shown_limit operations) }
{
    if operations == MOST_OPERATIONS {
        return Ok(());
    }
    push_numbered(out, " limit", operations as u64)
}

/// Adds what a store opens with, where a scenario says it.
fn push_opening(out: &mut String, opening: Option<Opening>) -> Result<(), AllocError>
    ensures { OnOk result (string_bytes out.new ≡ string_bytes out.old ++ shown_opening opening) }
{
    match opening {
        None => Ok(()),
        Some(opening) => {
            push_numbered(out, "begin", opening.revision())?;
            push_limit(out, opening.operations())?;
            out.push('\n')
        }
    }
}

/// The source of a scenario, in the one form in which sources are printed: each event on lines of its own, in their order, with the program of a
/// start in its place. It fails where an allocation failed.
pub fn scenario_source(alloc: Global, scenario: &Scenario) -> Result<String, AllocError>
    ensures { IfOk result (λ text. string_bytes text ≡ shown_scenario scenario.now) }
{
    let mut out = String::new(alloc);
    push_opening(&mut out, scenario.opening)?;
    push_events(alloc, &mut out, scenario.events.as_slice())?;
    Ok(out)
}
