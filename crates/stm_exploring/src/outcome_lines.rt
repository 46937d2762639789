//! The lines of what whole schedules come to.
ghost use Rattle.std.specs.Prelude.{◌≡◌, ◌≤◌, ◌++◌, length, map, IfOk, OnOk, string_bytes};
ghost use Rattle.std.specs.List.{concat, zip};
ghost use Rattle.serde_json.specs.View.{view};
ghost use Rattle.stm_schedules.specs.declared.outcome.RunnerEnd.TheVariants.{Committed};
ghost use Rattle.stm_exploring.specs.Lines.{key_value_data, runner_end_data, outcome_line, outcome_text, each_once, counted_text};
ghost use Rattle.stm_exploring.specs.Questions.{witness_text};

use crate::lines::push_count;
use crate::lists::{Written, list_json};
use crate::schedule_lines::push_scheduled;
use serde_json::{Value as Json, json};
use std::alloc::{AllocError, Global};
use std::collections::BTreeSet;
use stm_explain::Said;
use stm_history::{Sequence, Text};
use stm_meaning::Value;
use stm_report_lines::{array_json, parts_json, push_line, worded_json};
use stm_schedules::{KeyValue, Move, Outcome, RunnerEnd};
use stm_texts::Scenario;

impl Written for KeyValue {
    ghost written = { key_value_data };

    fn to_json(&self, alloc: Global) -> Result<Json, AllocError> {
        parts_json(alloc, &[&self.key, &self.value])
    }
}

/// The end of a runner that committed.
fn committed_json(alloc: Global, output: &[Value]) -> Result<Json, AllocError>
    ensures { IfOk result (λ v. view v ≡ runner_end_data (Committed output.now)) }
{
    let output = array_json(alloc, output)?;
    json!(in alloc; ["committed", output])
}

impl Written for RunnerEnd {
    ghost written = { runner_end_data };

    fn to_json(&self, alloc: Global) -> Result<Json, AllocError> {
        match self {
            RunnerEnd::Committed { output } => committed_json(alloc, output.as_slice()),
            RunnerEnd::GaveUp { key } => worded_json(alloc, "gaveup", &[key]),
            RunnerEnd::Aborted { text } => worded_json(alloc, "aborted", &[text]),
            RunnerEnd::Faulted { fault } => worded_json(alloc, "faulted", &[fault]),
            RunnerEnd::Ended { cause } => worded_json(alloc, "ended", &[cause]),
        }
    }
}

/// The line of an outcome, as JSON.
fn outcome_json(alloc: Global, outcome: &Outcome) -> Result<Json, AllocError>
    ensures { IfOk result (λ v. view v ≡ outcome_line outcome.now) }
{
    let word = Json::try_from_str(alloc, "outcome")?;
    let state = list_json(alloc, outcome.state.as_slice())?;
    let ends = list_json(alloc, outcome.ends.as_slice())?;
    let parts = vec![in alloc; word, state, ends]?;
    Ok(Json::Array(parts))
}

/// Adds the line of an outcome.
fn push_outcome(alloc: Global, text: &mut String, outcome: &Outcome) -> Result<(), AllocError>
    ensures { OnOk result (string_bytes text.new ≡ string_bytes text.old ++ outcome_text outcome.now) }
{
    let line = outcome_json(alloc, outcome)?;
    push_line(alloc, text, &line)
}

/// The line of an outcome.
fn outcome_line(alloc: Global, outcome: &Outcome) -> Result<Text, AllocError>
    ensures { IfOk result (λ text. text ≡ outcome_text outcome.now) }
{
    let mut line = String::new(alloc);
    push_outcome(alloc, &mut line, outcome)?;
    Ok(Text::new(line))
}

/// The line of an outcome, and that of the scenario with a schedule that comes to it.
fn witness_lines(
    alloc: Global,
    scenario: &Scenario,
    outcome: &Outcome,
    schedule: &[Move],
) -> Result<Text, AllocError>
    ensures { IfOk result (λ text. text ≡ witness_text scenario.now (outcome.now, schedule.now)) }
{
    let mut lines = String::new(alloc);
    push_outcome(alloc, &mut lines, outcome)?;
    push_scheduled(alloc, &mut lines, scenario, schedule)?;
    Ok(Text::new(lines))
}

/// The line of each outcome once, ascending by bytes.
pub(crate) fn each_line(alloc: Global, outcomes: &[Outcome]) -> Result<BTreeSet<Text>, AllocError>
    ensures { IfOk result (λ lines. lines.keys ≡ each_once (map outcome_text outcomes.now)) }
{
    let mut lines = BTreeSet::new(alloc);
    for outcome in outcomes {
        let line = outcome_line(alloc, outcome)?;
        lines.insert(line)?;
    }
    Ok(lines)
}

/// How many outcomes have a schedule.
#[tactic(auto, using(crate::proofs::OutcomeLineLemmas::pairs_of_first, crate::proofs::OutcomeLineLemmas::pairs_of_second))]
fn pair_count(outcomes: &[Outcome], schedules: &[Sequence<Move>]) -> usize
    ensures pairs { result ≡ length (zip outcomes.now schedules.now) }
    ensures first { result ≤ length outcomes.now }
    ensures second { result ≤ length schedules.now }
{
    if schedules.len() < outcomes.len() {
        return schedules.len();
    }
    outcomes.len()
}

/// The lines of each outcome and of its schedule once, ascending by bytes.
pub(crate) fn each_witness(
    alloc: Global,
    scenario: &Scenario,
    outcomes: &[Outcome],
    schedules: &[Sequence<Move>],
) -> Result<BTreeSet<Text>, AllocError>
    ensures { IfOk result (λ lines. lines.keys ≡ each_once (map (witness_text scenario.now) (zip outcomes.now schedules.now))) }
{
    let mut lines = BTreeSet::new(alloc);
    for i in 0..pair_count(outcomes, schedules) {
        let text = witness_lines(alloc, scenario, &outcomes[i], schedules[i].as_slice())?;
        lines.insert(text)?;
    }
    Ok(lines)
}

/// Adds these texts.
fn push_texts(text: &mut String, texts: &BTreeSet<Text>) -> Result<(), AllocError>
    ensures { OnOk result (string_bytes text.new ≡ string_bytes text.old ++ concat texts.now.keys) }
{
    for line in texts {
        text.push_str(line.as_str())?;
    }
    Ok(())
}

/// These texts, and behind them a line of a word and a number.
pub(crate) fn counted_text(alloc: Global, texts: &BTreeSet<Text>, word: &str, count: u64) -> Said
    ensures { IfOk result (λ text. string_bytes text ≡ counted_text texts.now.keys word.now count) }
{
    let mut text = String::new(alloc);
    push_texts(&mut text, texts)?;
    push_count(alloc, &mut text, word, count)?;
    Ok(text)
}
