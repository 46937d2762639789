//! What a run of jobs comes to: the keys that are present with their values, and how each job ended.
ghost use Rattle.std.specs.Prelude.{◌≡◌, ◌++◌, [], ◌∷◌, false, map, slice_get, IfOk, OnOk, string_bytes};
ghost use Rattle.serde_json.specs.View.{view};
ghost use Rattle.serde_json.specs.Written.{compact_text, has_float};
ghost use Rattle.stm_meaning.specs.States.{IsAscending};
ghost use Rattle.stm_report_lines.specs.LineData.{list};
ghost use Rattle.stm_job.specs.declared.job_end.JobEnd.TheVariants.{Committed};
ghost use Rattle.stm_job_texts.specs.Outcomes.{end_data, front_text, output_in, output_of, pair_data, pairs, IsFrontOf};

use crate::printing::refusal_name;
use serde_json::{Value as Json, json};
use std::alloc::{AllocError, Global};
use stm_entries::Entry;
use stm_job::{Gathered, JobEnd};
use stm_meaning::{State, Value};
use stm_report_lines::{array_json, worded_json};

/// What the program of an entry emitted, if it is one of a commit.
fn output_of(entry: &Entry) -> &[Value]
    ensures { result.now ≡ output_of entry.now }
{
    match entry {
        Entry::Program { output, .. } => output.as_slice(),
        _ => &[],
    }
}

/// What the program of the entry at a place emitted.
fn output_at(entries: &[Entry], index: usize) -> &[Value]
    ensures { result.now ≡ output_in (slice_get entries.now index) }
{
    if index < entries.len() {
        return output_of(&entries[index]);
    }
    &[]
}

/// The end of a job that committed.
fn committed_json(alloc: Global, entries: &[Entry], index: usize) -> Result<Json, AllocError>
    ensures { IfOk result (λ v. view v ≡ end_data entries.now (Committed index 0)) }
{
    let output = array_json(alloc, output_at(entries, index))?;
    json!(in alloc; ["committed", output])
}

/// How a job ended.
fn end_json(alloc: Global, entries: &[Entry], end: &JobEnd) -> Result<Json, AllocError>
    ensures { IfOk result (λ v. view v ≡ end_data entries.now end.now) }
{
    match end {
        JobEnd::Committed { index, .. } => committed_json(alloc, entries, *index),
        JobEnd::Aborted { text, .. } => worded_json(alloc, "aborted", &[text]),
        JobEnd::Faulted { fault, .. } => worded_json(alloc, "faulted", &[fault]),
        JobEnd::Refused(refusal) => json!(in alloc; ["ended", refusal_name(refusal)]),
        JobEnd::GaveUp { key } => worded_json(alloc, "gaveup", &[key]),
    }
}

/// Adds the end of a job.
fn push_end(
    alloc: Global,
    values: &mut Vec<Json>,
    entries: &[Entry],
    end: &JobEnd,
) -> Result<(), AllocError>
    ensures { OnOk result (map view values.new.items ≡ map view values.old.items ++ end_data entries.now end.now ∷ []) }
{
    let end = end_json(alloc, entries, end)?;
    values.push(end)?;
    Ok(())
}

/// How the jobs ended.
fn ends_json(alloc: Global, entries: &[Entry], ends: &[JobEnd]) -> Result<Json, AllocError>
    ensures { IfOk result (λ v. view v ≡ list (map (end_data entries.now) ends.now)) }
{
    let mut values = Vec::new(alloc);
    for end in ends {
        push_end(alloc, &mut values, entries, end)?;
    }
    Ok(Json::Array(values))
}

/// A key with its value.
fn pair_json(alloc: Global, key: &str, value: &str) -> Result<Json, AllocError>
    ensures { IfOk result (λ v. view v ≡ pair_data key.now value.now) }
{
    json!(in alloc; [key, value])
}

/// Adds a key with its value.
fn push_pair(
    alloc: Global,
    values: &mut Vec<Json>,
    key: &str,
    value: &str,
) -> Result<(), AllocError>
    ensures { OnOk result (map view values.new.items ≡ map view values.old.items ++ pair_data key.now value.now ∷ []) }
{
    let pair = pair_json(alloc, key, value)?;
    values.push(pair)?;
    Ok(())
}

/// The keys of a state with their values. The keys ascend.
fn state_json(alloc: Global, state: &State) -> Result<Json, AllocError>
    ensures data { IfOk result (λ v. view v ≡ list (pairs state.now)) }
    ensures ascending { OnOk result (IsAscending state.now) }
{
    let mut values = Vec::new(alloc);
    for i in 0..state.len() {
        let entry = state.at(i);
        push_pair(alloc, &mut values, entry.key.as_str(), entry.value.as_str())?;
    }
    Ok(Json::Array(values))
}

/// The compact text of data without floats.
fn compact(alloc: Global, value: &Json) -> Result<String, AllocError>
    requires { has_float (view value.now) ≡ false }
    ensures { IfOk result (λ text. string_bytes text ≡ compact_text (view value.now)) }
{
    let text = value.to_string(alloc)?;
    Ok(text)
}

/// The text of the keys of a state with their values. The keys ascend.
fn state_text(alloc: Global, state: &State) -> Result<String, AllocError>
    ensures text { IfOk result (λ text. string_bytes text ≡ compact_text (list (pairs state.now))) }
    ensures ascending { OnOk result (IsAscending state.now) }
{
    let keys = state_json(alloc, state)?;
    let text = compact(alloc, &keys)?;
    Ok(text)
}

/// The text of how the jobs ended.
fn ends_text(alloc: Global, entries: &[Entry], ends: &[JobEnd]) -> Result<String, AllocError>
    ensures { IfOk result (λ text. string_bytes text ≡ compact_text (list (map (end_data entries.now) ends.now))) }
{
    let reported = ends_json(alloc, entries, ends)?;
    let text = compact(alloc, &reported)?;
    Ok(text)
}

/// The beginning of the line of an outcome.
fn front_text(
    alloc: Global,
    state: &State,
    entries: &[Entry],
    ends: &[JobEnd],
) -> Result<String, AllocError>
    ensures text { IfOk result (λ text. string_bytes text ≡ front_text state.now entries.now ends.now) }
    ensures ascending { OnOk result (IsAscending state.now) }
{
    let keys = state_text(alloc, state)?;
    let reported = ends_text(alloc, entries, ends)?;
    let mut text = String::from_str(alloc, "[\"outcome\",")?;
    text.push_str(keys.as_str())?;
    text.push_str(",")?;
    text.push_str(reported.as_str())?;
    Ok(text)
}

/// The beginning of the line of what a run came to, `["outcome",STATE,ENDS`; how often that came follows it. It fails where an allocation failed.
pub fn front_of(alloc: Global, gathered: &Gathered) -> Result<String, AllocError>
    ensures { IfOk result (λ text. IsFrontOf gathered.now.ends.items gathered.now.hall (string_bytes text)) }
{
    let state = gathered.hall.state()?;
    let ends = gathered.ends.as_slice();
    let text = front_text(alloc, &state, gathered.hall.entries(), ends)?;
    Ok(text)
}
