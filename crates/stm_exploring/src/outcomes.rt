//! What the whole schedules of a scenario come to, from its source to what is printed.
ghost use Rattle.std.specs.Prelude.{◌≡◌, ◌≤◌, ◌+◌, [], false, IfOk, string_bytes};
ghost use Rattle.stm_devices.specs.declared.transfer.TheConstants.{MOST_READ};
ghost use Rattle.stm_serial_search.specs.Started.{HaveNoStep};
ghost use Rattle.stm_exploring.specs.Asking.{place_of, ends_of};
ghost use Rattle.stm_exploring.specs.Beginnings.{IsReady, whole_place};
ghost use Rattle.stm_exploring.specs.Questions.{AreGathered, AreListed, ArePrinted, Gathers, all_text, found_texts, gathered_text, printed_outcomes, verdict_of_outcomes};

use crate::advice::tell_if_open;
use crate::audience::Audience;
use crate::beginning::{Begun, begin};
use crate::outcome_lines::{counted_text, each_line, each_witness};
use crate::outcome_runs::tell_runs;
use crate::printed::{Printed, SearchAnswer};
use crate::question::Question;
use crate::reading::{ExploreFault, scenario_of};
use crate::replaying::outcomes_there;
use crate::serial::compare;
use crate::serial_levels::compare_at_levels;
use std::alloc::{AllocError, Global};
use std::collections::BTreeSet;
use stm_devices::Source;
use stm_explain::Said;
use stm_explore::{Budget, Move, Outcome, Outcomes, Sequence, find_outcomes};
use stm_history::Text;
use stm_program::Level;
use stm_texts::Scenario;

/// The texts of these outcomes, each once, ascending by bytes: with schedules that come to them, where these are asked for.
fn found_texts(
    alloc: Global,
    witnessed: bool,
    scenario: &Scenario,
    outcomes: &[Outcome],
    schedules: &[Sequence<Move>],
) -> Result<BTreeSet<Text>, AllocError>
    ensures { IfOk result (λ texts. texts.keys ≡ found_texts witnessed scenario.now outcomes.now schedules.now) }
{
    if witnessed {
        return each_witness(alloc, scenario, outcomes, schedules);
    }
    each_line(alloc, outcomes)
}

/// These texts of all outcomes, and how many there are.
fn all_text(alloc: Global, texts: &BTreeSet<Text>) -> Said
    ensures { IfOk result (λ text. string_bytes text ≡ all_text texts.now.keys) }
{
    counted_text(alloc, texts, "outcomes", texts.len() as u64)
}

/// What is printed of what whole schedules come to.
fn gathered_text(alloc: Global, witnessed: bool, scenario: &Scenario, gathered: &Outcomes) -> Said
    ensures { IfOk result (λ text. string_bytes text ≡ gathered_text witnessed scenario.now gathered.now) }
{
    match gathered {
        Outcomes::Found {
            outcomes,
            schedules,
        } => {
            let texts = found_texts(
                alloc,
                witnessed,
                scenario,
                outcomes.as_slice(),
                schedules.as_slice(),
            )?;
            all_text(alloc, &texts)
        }
        Outcomes::Open {
            gone_through,
            outcomes,
            schedules,
        } => {
            let texts = found_texts(
                alloc,
                witnessed,
                scenario,
                outcomes.as_slice(),
                schedules.as_slice(),
            )?;
            counted_text(alloc, &texts, "open", *gone_through)
        }
    }
}

/// Whether all whole schedules were gone through.
fn verdict_of(gathered: &Outcomes) -> SearchAnswer
    ensures { result ≡ verdict_of_outcomes gathered.now }
{
    match gathered {
        Outcomes::Found { .. } => SearchAnswer::Kept,
        Outcomes::Open { .. } => SearchAnswer::Open,
    }
}

/// What is printed of what whole schedules come to, and whether all were gone through.
fn print(
    alloc: Global,
    witnessed: bool,
    scenario: &Scenario,
    gathered: &Outcomes,
) -> Result<Printed, AllocError>
    ensures { IfOk result (λ p. p ≡ printed_outcomes witnessed scenario.now gathered.now) }
{
    let text = gathered_text(alloc, witnessed, scenario, gathered)?;
    Ok(Printed {
        verdict: verdict_of(gathered),
        text: Text::new(text),
    })
}

/// What whole schedules come to, by a search in the small world, where there is one.
fn gather_in_either<O: Audience>(
    alloc: Global,
    begun: &Begun<'_>,
    budget: &mut Budget<O>,
) -> Result<Outcomes, AllocError>
    requires { IsReady [] begun.now }
    ensures { IfOk result (AreGathered (whole_place begun.now) begun.now.ends.items) }
{
    let ends = begun.ends.as_slice();
    match &begun.small {
        None => {
            let found = find_outcomes(alloc, &begun.world, begun.others, ends, budget)?;
            Ok(found)
        }
        Some(small) => {
            let found = find_outcomes(alloc, small, begun.others, ends, budget)?;
            let there = outcomes_there(alloc, &begun.world, begun.others, ends, found)?;
            Ok(there)
        }
    }
}

/// What the whole schedules of a scenario come to.
fn gather_scenario<O: Audience>(
    alloc: Global,
    scenario: &Scenario,
    budget: &mut Budget<O>,
) -> Result<Outcomes, AllocError>
    requires { HaveNoStep scenario.now.events }
    ensures { IfOk result (AreGathered (place_of scenario.now) (ends_of scenario.now)) }
{
    let begun = begin(alloc, scenario, &[], &mut budget.observer)?;
    let gathered = gather_in_either(alloc, &begun, budget);
    tell_runs(alloc, &begun, &mut budget.observer);
    drop(begun);
    gathered
}

/// What is printed of what the whole schedules of a scenario come to: with schedules, or without.
fn gather<O: Audience>(
    alloc: Global,
    witnessed: bool,
    scenario: &Scenario,
    budget: &mut Budget<O>,
) -> Result<Printed, AllocError>
    requires { HaveNoStep scenario.now.events }
    ensures { IfOk result (AreListed witnessed scenario.now) }
{
    let gathered = gather_scenario(alloc, scenario, budget)?;
    print(alloc, witnessed, scenario, &gathered)
}

/// What is printed of what is asked of a scenario.
fn answer<O: Audience>(
    alloc: Global,
    question: Question,
    scenario: &mut Scenario,
    budget: &mut Budget<O>,
) -> Result<Printed, AllocError>
    requires { HaveNoStep scenario.old.events }
    ensures { IfOk result (ArePrinted question scenario.old) }
{
    match question {
        Question::Outcomes => gather(alloc, false, scenario, budget),
        Question::Witnesses => gather(alloc, true, scenario, budget),
        Question::Serial => compare(alloc, scenario, budget),
        Question::SerialLevels => compare_at_levels(alloc, scenario, budget),
    }
}

/// Reads a scenario from its source to the end, and looks what its whole schedules come to: the state, and how each runner ended. Where it is asked,
/// each has the scenario with a schedule that comes to it, or it is told whether a serial order comes to each.
///
/// The steps of the scenario are left out. Each start is taken at the level that is named, where one is. At most as many moves are made as `budget`
/// has left, and its observer is notified of how far the search is. The source has not failed before. It fails as `BadScenario` with the scenario's
/// first fault; as `OutOfMemory` where an allocation failed; and as `Device` exactly where the source has failed. At most 16777217 bytes are read, in
/// at most that many reads.
pub fn outcomes_of_source<S: Source, O: Audience>(
    alloc: Global,
    question: Question,
    scenario: &mut S,
    level: Option<Level>,
    budget: &mut Budget<O>,
) -> Result<Printed, ExploreFault>
    requires { S.failed scenario.old ≡ false }
    ensures gathered { Gathers question level (S.left scenario.old) (S.failed scenario.new) result }
    ensures bounded { S.reads scenario.new ≤ S.reads scenario.old + MOST_READ }
{
    let mut scenario = scenario_of(alloc, scenario, level, &mut budget.observer)?;
    match answer(alloc, question, &mut scenario, budget) {
        Ok(printed) => {
            let events = scenario.events.as_slice();
            tell_if_open(alloc, events, printed.verdict, &mut budget.observer);
            Ok(printed)
        }
        Err(_) => Err(ExploreFault::OutOfMemory),
    }
}
