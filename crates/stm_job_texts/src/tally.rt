//! How often each outcome came.
ghost use Rattle.std.specs.Prelude.{◌≡◌, ◌++◌, ◌≤◌, ◌<◌, ◌^◌, [], ◌∷◌, ℕ, List, map, sum, IfOk, OnOk, string_bytes};
ghost use Rattle.std.specs.List.{concat};
ghost use Rattle.std.specs.Map.{values_of};
ghost use Rattle.stm_job_texts.specs.Outcomes.{tally_text, times_line};
ghost use Rattle.stm_job_texts.specs.Tallies.{Counts, times_in};

use crate::printing::push_count;
use itoa::Buffer;
use std::alloc::{AllocError, Global};
use std::collections::BTreeMap;
use stm_history::Text;

/// How often a text came.
fn times_of(tally: &BTreeMap<Text, u64>, text: &Text) -> u64
    ensures times { result ≡ times_in tally.now.entries text.now }
    ensures within { result ≤ sum (values_of tally.now.entries) }
{
    match tally.get(text) {
        Some(times) => *times,
        None => 0,
    }
}

/// Counts one more of a text, after `before` texts. Where an allocation fails nothing is said of the tally.
pub fn count_one(tally: &mut BTreeMap<Text, u64>, text: Text, before: u64) -> Result<(), AllocError>
    requires total { sum (values_of tally.old.entries) ≡ before }
    requires few { before < 2 ^ 63 }
    ensures { OnOk result ((texts : List (List ℕ)) → Counts texts tally.old.entries → Counts (texts ++ text ∷ []) tally.new.entries) }
{
    let times = times_of(tally, &text);
    tally.insert(text, times + 1)?;
    Ok(())
}

/// Adds the line of an outcome: its beginning, followed by how often it came.
fn push_times(text: &mut String, front: &str, times: u64) -> Result<(), AllocError>
    ensures { OnOk result (string_bytes text.new ≡ string_bytes text.old ++ times_line (front.now, times)) }
{
    let mut buffer = Buffer::new();
    text.push_str(front)?;
    text.push_str(",")?;
    text.push_str(buffer.format(times))?;
    text.push_str("]\n")
}

/// Adds a line for each outcome.
fn push_all(text: &mut String, tally: &BTreeMap<Text, u64>) -> Result<(), AllocError>
    ensures { OnOk result (string_bytes text.new ≡ string_bytes text.old ++ concat (map times_line tally.now.entries)) }
{
    for counted in tally {
        let (front, times) = counted;
        push_times(text, front.as_str(), *times)?;
    }
    Ok(())
}

/// What is printed of the outcomes of `runs` runs: a line for each, in ascending order, with how often it came, and `["runs",RUNS]`. It fails where
/// an allocation failed.
pub fn tally_text(
    alloc: Global,
    tally: &BTreeMap<Text, u64>,
    runs: u32,
) -> Result<String, AllocError>
    ensures { IfOk result (λ text. string_bytes text ≡ tally_text tally.now.entries runs) }
{
    let mut text = String::new(alloc);
    push_all(&mut text, tally)?;
    push_count(alloc, &mut text, "runs", runs as u64)?;
    Ok(text)
}
