//! Whether whole schedules come to what serial orders come to at each of the four levels, and what is printed of that.
ghost use Rattle.std.specs.Prelude.{◌≡◌, ◌++◌, map, IfOk, OnOk, string_bytes};
ghost use Rattle.std.specs.List.{concat, list_all, list_any};
ghost use Rattle.serde_json.specs.View.{view};
ghost use Rattle.stm_report_lines.specs.Text.{line_text};
ghost use Rattle.stm_serial_search.specs.Started.{HaveNoStep};
ghost use Rattle.stm_explore.specs.Orders.{IsSerialAnswer};
ghost use Rattle.stm_exploring.specs.Asking.{ends_of, place_of};
ghost use Rattle.stm_exploring.specs.Levels.{leveled};
ghost use Rattle.stm_exploring.specs.SerialLevels.{AreComparedAt, ArePrintedAt, enough_serial, is_odd, is_serial, printed_at, serial_level_line, serial_level_text, serial_levels_text, verdict_at};

use crate::audience::Audience;
use crate::enough::tell_enough_serial;
use crate::heard::{AtLevel, HeardLine, tell_heard};
use crate::level_lines::{level_name, push_enough};
use crate::leveled::{LEVELS, put_level};
use crate::lines::push_word;
use crate::printed::{Printed, SearchAnswer};
use crate::serial::{compare_scenario, serial_parts};
use serde_json::Value as Json;
use std::alloc::{AllocError, Global};
use stm_explain::Said;
use stm_explore::{Budget, SerialAnswer};
use stm_history::Text;
use stm_program::Level;
use stm_report_lines::push_line;
use stm_texts::Scenario;

/// What is known at a level.
#[derive(Drop)]
pub(crate) struct SerialLevel {
    pub(crate) level: Level,
    pub(crate) answer: SerialAnswer,
}

/// What is known of a scenario, once its starts are put at a level. At most so many moves are made. What is said of it is kept, with the level.
fn compare_level<O: Audience>(
    alloc: Global,
    scenario: &mut Scenario,
    level: Level,
    most: u64,
    heard: &mut Vec<HeardLine>,
    audience: &mut O,
) -> Result<SerialLevel, AllocError>
    requires { HaveNoStep scenario.old.events }
    ensures leveled { OnOk result (scenario.new ≡ leveled level scenario.old) }
    ensures stepless { OnOk result (HaveNoStep scenario.new.events) }
    ensures level { IfOk result (λ a. a.level ≡ level) }
    ensures answer { IfOk result (λ a. IsSerialAnswer (place_of scenario.new) (ends_of scenario.new) a.answer) }
{
    put_level(alloc, scenario, level);
    audience.begins(level);
    let observer = AtLevel {
        alloc,
        level,
        heard,
        audience,
    };
    let mut budget = Budget {
        left: most,
        observer,
    };
    let answer = compare_scenario(alloc, scenario, &mut budget)?;
    Ok(SerialLevel { level, answer })
}

/// What is known of a scenario at each of these levels. At each at most so many moves are made.
fn compare_levels<O: Audience>(
    alloc: Global,
    scenario: &mut Scenario,
    levels: &[Level],
    most: u64,
    audience: &mut O,
) -> Result<Vec<SerialLevel>, AllocError>
    requires { HaveNoStep scenario.old.events }
    ensures { IfOk result (λ at. AreComparedAt levels.now scenario.old at.items) }
{
    let mut heard = Vec::new(alloc);
    let mut at = Vec::new(alloc);
    for level in levels {
        let answer = compare_level(alloc, scenario, *level, most, &mut heard, audience)?;
        at.push(answer)?;
    }
    tell_heard(alloc, heard.as_slice(), audience);
    Ok(at)
}

/// Whether a serial order comes to each outcome.
fn is_serial(a: &SerialLevel) -> bool
    ensures { result ≡ is_serial a.now }
{
    matches!(a.answer, SerialAnswer::Serial { .. })
}

/// Whether no serial order comes to some outcome.
fn is_odd(a: &SerialLevel) -> bool
    ensures { result ≡ is_odd a.now }
{
    matches!(a.answer, SerialAnswer::Anomaly { .. })
}

/// Whether a serial order comes to each outcome at each of these levels.
fn are_serial(at: &[SerialLevel]) -> bool
    ensures { result ≡ list_all is_serial at.now }
{
    at.iter().all(is_serial)
}

/// Whether no serial order comes to some outcome at one of these levels.
fn any_odd(at: &[SerialLevel]) -> bool
    ensures { result ≡ list_any is_odd at.now }
{
    at.iter().any(is_odd)
}

/// The first level from which on a serial order comes to each outcome.
fn enough_serial(at: &[SerialLevel]) -> Option<Level>
    ensures { result ≡ enough_serial at.now }
{
    for i in 0..at.len() {
        if are_serial(&at[i..]) {
            return Some(at[i].level);
        }
    }
    None
}

/// The line of a level, as JSON.
fn serial_level_json(alloc: Global, a: &SerialLevel) -> Result<Json, AllocError>
    ensures { IfOk result (λ v. view v ≡ serial_level_line a.now) }
{
    let mut parts = serial_parts(alloc, &a.answer)?;
    push_word(alloc, &mut parts, level_name(a.level))?;
    Ok(Json::Array(parts))
}

/// Adds the line of a level.
fn push_serial_level(alloc: Global, text: &mut String, a: &SerialLevel) -> Result<(), AllocError>
    ensures { OnOk result (string_bytes text.new ≡ string_bytes text.old ++ serial_level_text a.now) }
{
    let line = serial_level_json(alloc, a)?;
    push_line(alloc, text, &line)
}

/// Adds the lines of levels.
fn push_serial_levels(
    alloc: Global,
    text: &mut String,
    at: &[SerialLevel],
) -> Result<(), AllocError>
    ensures { OnOk result (string_bytes text.new ≡ string_bytes text.old ++ concat (map serial_level_text at.now)) }
{
    for a in at {
        push_serial_level(alloc, text, a)?;
    }
    Ok(())
}

/// What is printed of what is known at levels.
fn serial_levels_text(alloc: Global, at: &[SerialLevel]) -> Said
    ensures { IfOk result (λ text. string_bytes text ≡ serial_levels_text at.now) }
{
    let mut text = String::new(alloc);
    push_serial_levels(alloc, &mut text, at)?;
    push_enough(alloc, &mut text, enough_serial(at))?;
    Ok(text)
}

/// What it comes to.
pub(crate) fn verdict_at(at: &[SerialLevel]) -> SearchAnswer
    ensures { result ≡ verdict_at at.now }
{
    if any_odd(at) {
        return SearchAnswer::Broken;
    }
    if are_serial(at) {
        return SearchAnswer::Kept;
    }
    SearchAnswer::Open
}

/// What is printed of what is known at levels, and what it comes to.
fn print_at(alloc: Global, at: &[SerialLevel]) -> Result<Printed, AllocError>
    ensures { IfOk result (λ p. p ≡ printed_at at.now) }
{
    let text = serial_levels_text(alloc, at)?;
    Ok(Printed {
        verdict: verdict_at(at),
        text: Text::new(text),
    })
}

/// What is printed of whether whole schedules come to what serial orders come to at each level, the weakest first.
pub(crate) fn compare_at_levels<O: Audience>(
    alloc: Global,
    scenario: &mut Scenario,
    budget: &mut Budget<O>,
) -> Result<Printed, AllocError>
    requires { HaveNoStep scenario.old.events }
    ensures { IfOk result (ArePrintedAt scenario.old) }
{
    let most = budget.left;
    let audience = &mut budget.observer;
    let at = compare_levels(alloc, scenario, &LEVELS, most, audience)?;
    tell_enough_serial(at.as_slice(), &mut budget.observer);
    print_at(alloc, at.as_slice())
}
