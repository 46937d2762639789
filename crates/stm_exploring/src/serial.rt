//! Whether the whole schedules of a scenario come to what serial orders come to, and what is printed of that.
ghost use Rattle.std.specs.Prelude.{◌≡◌, ◌++◌, [], map, IfOk, OnOk, string_bytes};
ghost use Rattle.serde_json.specs.View.{view};
ghost use Rattle.stm_report_lines.specs.Text.{line_text};
ghost use Rattle.stm_explore.specs.Orders.{IsSerialAnswer};
ghost use Rattle.stm_serial_search.specs.Started.{HaveNoStep};
ghost use Rattle.stm_exploring.specs.Asking.{place_of, ends_of};
ghost use Rattle.stm_exploring.specs.Anomalies.{anomaly_parts, printed_serial, serial_line, serial_parts, serial_schedule, serial_text, verdict_of_serial, IsPrintedSerial};
ghost use Rattle.stm_exploring.specs.Beginnings.{IsReady, whole_place};

use crate::audience::Audience;
use crate::beginning::{Begun, begin};
use crate::lines::count_parts;
use crate::lists::list_json;
use crate::naming::tell_name;
use crate::printed::{Printed, SearchAnswer};
use crate::replaying::answer_there;
use crate::schedule_lines::push_scheduled;
use serde_json::Value as Json;
use std::alloc::{AllocError, Global};
use stm_explain::Said;
use stm_explore::{Budget, Outcome, SerialAnswer, find_anomaly};
use stm_history::Text;
use stm_report_lines::push_line;
use stm_texts::Scenario;

/// The elements of the line of an outcome that no serial order comes to, and to which a schedule of so many moves does.
fn anomaly_parts(alloc: Global, outcome: &Outcome, moves: u64) -> Result<Vec<Json>, AllocError>
    ensures { IfOk result (λ parts. map view parts.items ≡ anomaly_parts outcome.now moves) }
{
    let word = Json::try_from_str(alloc, "anomaly")?;
    let state = list_json(alloc, outcome.state.as_slice())?;
    let ends = list_json(alloc, outcome.ends.as_slice())?;
    let parts = vec![in alloc; word, Json::from(moves), state, ends]?;
    Ok(parts)
}

/// The elements of the line of an answer.
pub(crate) fn serial_parts(alloc: Global, answer: &SerialAnswer) -> Result<Vec<Json>, AllocError>
    ensures { IfOk result (λ parts. map view parts.items ≡ serial_parts answer.now) }
{
    match answer {
        SerialAnswer::Serial { outcomes } => count_parts(alloc, "serial", *outcomes),
        SerialAnswer::Anomaly { outcome, moves } => {
            anomaly_parts(alloc, outcome, moves.len() as u64)
        }
        SerialAnswer::Open { gone_through } => count_parts(alloc, "open", *gone_through),
        SerialAnswer::Undecided { moves, .. } => count_parts(alloc, "open", moves.len() as u64),
    }
}

/// The line of an answer, as JSON.
fn serial_json(alloc: Global, answer: &SerialAnswer) -> Result<Json, AllocError>
    ensures { IfOk result (λ v. view v ≡ serial_line answer.now) }
{
    let parts = serial_parts(alloc, answer)?;
    Ok(Json::Array(parts))
}

/// Adds the line of an answer.
fn push_serial(alloc: Global, text: &mut String, answer: &SerialAnswer) -> Result<(), AllocError>
    ensures { OnOk result (string_bytes text.new ≡ string_bytes text.old ++ line_text (serial_line answer.now)) }
{
    let line = serial_json(alloc, answer)?;
    push_line(alloc, text, &line)
}

/// Adds the line of the scenario with the schedule of an anomaly.
fn push_anomaly(
    alloc: Global,
    text: &mut String,
    scenario: &Scenario,
    answer: &SerialAnswer,
) -> Result<(), AllocError>
    ensures { OnOk result (string_bytes text.new ≡ string_bytes text.old ++ serial_schedule scenario.now answer.now) }
{
    match answer {
        SerialAnswer::Anomaly { moves, .. } => {
            push_scheduled(alloc, text, scenario, moves.as_slice())
        }
        SerialAnswer::Serial { .. } | SerialAnswer::Open { .. } | SerialAnswer::Undecided { .. } =>
            Ok(()),
    }
}

/// What is printed of an answer.
fn serial_text(alloc: Global, scenario: &Scenario, answer: &SerialAnswer) -> Said
    ensures { IfOk result (λ text. string_bytes text ≡ serial_text scenario.now answer.now) }
{
    let mut text = String::new(alloc);
    push_serial(alloc, &mut text, answer)?;
    push_anomaly(alloc, &mut text, scenario, answer)?;
    Ok(text)
}

/// What an answer comes to.
fn verdict_of(answer: &SerialAnswer) -> SearchAnswer
    ensures { result ≡ verdict_of_serial answer.now }
{
    match answer {
        SerialAnswer::Serial { .. } => SearchAnswer::Kept,
        SerialAnswer::Anomaly { .. } => SearchAnswer::Broken,
        SerialAnswer::Open { .. } | SerialAnswer::Undecided { .. } => SearchAnswer::Open,
    }
}

/// What is printed of an answer, and what it comes to.
fn print(alloc: Global, scenario: &Scenario, answer: &SerialAnswer) -> Result<Printed, AllocError>
    ensures { IfOk result (λ p. p ≡ printed_serial scenario.now answer.now) }
{
    let text = serial_text(alloc, scenario, answer)?;
    Ok(Printed {
        verdict: verdict_of(answer),
        text: Text::new(text),
    })
}

/// Whether whole schedules come to what serial orders come to, by a search in the small world, where there is one.
fn compare_in_either<O: Audience>(
    alloc: Global,
    begun: &Begun<'_>,
    budget: &mut Budget<O>,
) -> Result<SerialAnswer, AllocError>
    requires { IsReady [] begun.now }
    ensures { IfOk result (IsSerialAnswer (whole_place begun.now) begun.now.ends.items) }
{
    let ends = begun.ends.as_slice();
    match &begun.small {
        None => find_anomaly(alloc, &begun.world, begun.others, ends, budget),
        Some(small) => {
            let answer = find_anomaly(alloc, small, begun.others, ends, budget)?;
            let there = answer_there(alloc, &begun.world, begun.others, ends, answer)?;
            Ok(there)
        }
    }
}

/// Whether the whole schedules of a scenario come to what serial orders come to.
pub(crate) fn compare_scenario<O: Audience>(
    alloc: Global,
    scenario: &Scenario,
    budget: &mut Budget<O>,
) -> Result<SerialAnswer, AllocError>
    requires { HaveNoStep scenario.now.events }
    ensures { IfOk result (IsSerialAnswer (place_of scenario.now) (ends_of scenario.now)) }
{
    let mut begun = begin(alloc, scenario, &[], &mut budget.observer)?;
    let answer = compare_in_either(alloc, &begun, budget);
    if let Ok(found) = &answer {
        let others = begun.others;
        let audience = &mut budget.observer;
        tell_name(alloc, &mut begun.world, others, found, audience);
    }
    drop(begun);
    answer
}

/// What is printed of whether the whole schedules of a scenario come to what serial orders come to.
pub(crate) fn compare<O: Audience>(
    alloc: Global,
    scenario: &Scenario,
    budget: &mut Budget<O>,
) -> Result<Printed, AllocError>
    requires { HaveNoStep scenario.now.events }
    ensures { IfOk result (IsPrintedSerial scenario.now) }
{
    let answer = compare_scenario(alloc, scenario, budget)?;
    print(alloc, scenario, &answer)
}
