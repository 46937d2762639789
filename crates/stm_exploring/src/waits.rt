//! Waits: as they are spelled on the command line, and beside a scenario.
ghost use Rattle.std.specs.Prelude.{◌≡◌, ◌++◌, length, None, decimal, option_copied, string_bytes, IfErr, IfOk, IfSome, OnOk};
ghost use Rattle.std.specs.List.{find};
ghost use Rattle.stm_json.specs.declared.cause.Cause.TheVariants.{Range};
ghost use Rattle.stm_exploring.specs.Waits.{commit_text, wait_text, next_wait_text, more_waits_text, waits_text, runner_count, is_no_runner, is_stranger, first_stranger, IsWaitFault};

use crate::audience::{Audience, tell_count};
use crate::reading::ExploreFault;
use crate::setup::setup_and_others;
use itoa::Buffer;
use std::alloc::{AllocError, Global};
use stm_explain::Said;
use stm_explore::Wait;
use stm_history::Text;
use stm_json::{BadInput, Cause};
use stm_serial_search::programs_started;
use stm_texts::Scenario;

/// Why a text spells no waits.
#[derive(Clone, Copy, Debug, PartialEq, Eq)]
pub struct BadWaits<'a> {
    /// The part of the text that is wrong.
    pub part: &'a str,
    /// What is wrong with it, to be said after it.
    pub reason: &'static str,
}

/// The number of a runner that a text spells.
fn number_in(text: &str) -> Result<u64, BadWaits<'_>> {
    match text.parse::<u64>() {
        Ok(number) if number > 0 => Ok(number),
        _ => Err(BadWaits {
            part: text,
            reason: "is no number of a runner; the first start has number 1",
        }),
    }
}

/// The wait for the runner that this text names: for its end, or for its commit.
fn wait_for(runner: u64, text: &str) -> Result<Wait, BadWaits<'_>> {
    match text.split_once(':') {
        Some((first, "committed")) => Ok(Wait {
            runner,
            first: number_in(first)?,
            committed: true,
        }),
        Some((_, word)) => Err(BadWaits {
            part: word,
            reason: "stands where only 'committed' may",
        }),
        None => Ok(Wait {
            runner,
            first: number_in(text)?,
            committed: false,
        }),
    }
}

/// The wait that a text spells, as `RUNNER:FIRST` or `RUNNER:FIRST:committed`.
fn wait_in(text: &str) -> Result<Wait, BadWaits<'_>> {
    match text.split_once(':') {
        Some((runner, rest)) => wait_for(number_in(runner)?, rest),
        None => Err(BadWaits {
            part: text,
            reason: "is no wait, which is RUNNER:FIRST or RUNNER:FIRST:committed",
        }),
    }
}

/// The waits that the parts of a text spell, with commas between them.
fn read_waits(alloc: Global, text: &str) -> Result<Result<Vec<Wait>, BadWaits<'_>>, AllocError> {
    let mut waits = Vec::new(alloc);
    for part in text.split(',') {
        match wait_in(part) {
            Ok(wait) => waits.push(wait)?,
            Err(bad) => return Ok(Err(bad)),
        }
    }
    Ok(Ok(waits))
}

/// The part of a text at an index, where commas stand between them.
fn part_at(text: &str, index: usize) -> &str {
    let mut parts = text.split(',');
    parts.nth(index).unwrap_or(text)
}

/// The index of the first wait of a runner for one that it waits for before.
fn find_repeated(waits: &[Wait]) -> Option<usize> {
    for index in 0..waits.len() {
        let wait = waits[index];
        let mut before = waits[..index].iter();
        if before.any(|other| other.runner == wait.runner && other.first == wait.first) {
            return Some(index);
        }
    }
    None
}

/// Those of these waits that are for a runner that waits itself.
fn for_waiting(alloc: Global, waits: &[Wait]) -> Result<Vec<Wait>, AllocError> {
    let mut left = Vec::new(alloc);
    for wait in waits {
        if waits.iter().any(|other| other.runner == wait.first) {
            left.push(*wait)?;
        }
    }
    Ok(left)
}

/// Whether some runners wait for each other in a circle, so that none of them ever makes a step: waits are left once those were taken away, again and
/// again, that are for a runner that does not wait.
fn has_circle(alloc: Global, waits: &[Wait]) -> Result<bool, AllocError> {
    let mut left = for_waiting(alloc, waits)?;
    for _ in 0..waits.len() {
        let next = for_waiting(alloc, left.as_slice())?;
        if next.len() == left.len() {
            return Ok(!next.is_empty());
        }
        left = next;
    }
    Ok(!left.is_empty())
}

/// The index of the first wait that closes a circle with some before it.
fn find_circle(alloc: Global, waits: &[Wait]) -> Result<Option<usize>, AllocError> {
    if !has_circle(alloc, waits)? {
        return Ok(None);
    }
    for index in 0..waits.len() {
        if has_circle(alloc, &waits[..index + 1])? {
            return Ok(Some(index));
        }
    }
    Ok(None)
}

/// What is wrong with waits that this text spells, if anything is: they are one by one what waits are.
fn fault_among<'a>(
    alloc: Global,
    text: &'a str,
    waits: &[Wait],
) -> Result<Option<BadWaits<'a>>, AllocError> {
    if let Some(index) = find_repeated(waits) {
        return Ok(Some(BadWaits {
            part: part_at(text, index),
            reason: "is a second wait of the same runner for the same one",
        }));
    }
    match find_circle(alloc, waits)? {
        Some(index) => Ok(Some(BadWaits {
            part: part_at(text, index),
            reason: "closes a circle of waits, whose runners would never make a step",
        })),
        None => Ok(None),
    }
}

/// Adds a number in decimal.
fn push_number(text: &mut String, number: u64) -> Result<(), AllocError>
    ensures { OnOk result (string_bytes text.new ≡ string_bytes text.old ++ decimal number) }
{
    let mut buffer = Buffer::new();
    text.push_str(buffer.format(number))
}

/// What stands after the two runners of a wait.
fn commit_text(committed: bool) -> &'static str
    ensures { result.now ≡ commit_text committed }
{
    if committed { ":committed" } else { "" }
}

/// Adds a wait.
fn push_wait(text: &mut String, wait: &Wait) -> Result<(), AllocError>
    ensures { OnOk result (string_bytes text.new ≡ string_bytes text.old ++ wait_text wait.now) }
{
    push_number(text, wait.runner)?;
    text.push_str(":")?;
    push_number(text, wait.first)?;
    text.push_str(commit_text(wait.committed))
}

/// Adds a wait with a comma before it.
fn push_next(text: &mut String, wait: &Wait) -> Result<(), AllocError>
    ensures { OnOk result (string_bytes text.new ≡ string_bytes text.old ++ next_wait_text wait.now) }
{
    text.push_str(",")?;
    push_wait(text, wait)
}

/// Adds waits, each with a comma before it.
fn push_more(text: &mut String, waits: &[Wait]) -> Result<(), AllocError>
    ensures { OnOk result (string_bytes text.new ≡ string_bytes text.old ++ more_waits_text waits.now) }
{
    for wait in waits {
        push_next(text, wait)?;
    }
    Ok(())
}

/// How waits are spelled.
fn waits_text(alloc: Global, waits: &[Wait]) -> Said
    ensures { IfOk result (λ text. string_bytes text ≡ waits_text waits.now) }
{
    let mut text = String::new(alloc);
    if let Some((first, rest)) = waits.split_first() {
        push_wait(&mut text, first)?;
        push_more(&mut text, rest)?;
    }
    Ok(text)
}

/// These waits, if the text is how they are spelled, and what is wrong with it otherwise.
fn spelled<'a>(
    alloc: Global,
    text: &'a str,
    waits: Vec<Wait>,
) -> Result<Result<Vec<Wait>, BadWaits<'a>>, AllocError>
    ensures { IfOk result (λ read. IfOk read (λ waits. waits_text waits.items ≡ text.now)) }
{
    let spelling = waits_text(alloc, waits.as_slice())?;
    if spelling.as_str() == text {
        return Ok(Ok(waits));
    }
    Ok(Err(BadWaits {
        part: text,
        reason: "has a number with more than its digits",
    }))
}

/// The waits that a text spells, with commas between them: runner 3 makes no step before runner 1 has ended where it is `3:1`, and none at all
/// unless that one committed where it is `3:1:committed`. Or the part of it that is wrong, with the reason: it is no wait, a second one of a runner for
/// the same one, or closes a circle of runners that wait for each other.
///
/// It fails only when out of memory.
pub fn waits_in(alloc: Global, text: &str) -> Result<Result<Vec<Wait>, BadWaits<'_>>, AllocError>
    ensures { IfOk result (λ read. IfOk read (λ waits. waits_text waits.items ≡ text.now)) }
{
    let waits = match read_waits(alloc, text)? {
        Ok(waits) => waits,
        Err(bad) => return Ok(Err(bad)),
    };
    match fault_among(alloc, text, waits.as_slice())? {
        Some(bad) => Ok(Err(bad)),
        None => spelled(alloc, text, waits),
    }
}

/// Whether none of so many runners has this number.
fn is_no_runner(count: u64, runner: u64) -> bool
    ensures { result ≡ is_no_runner count runner }
{
    runner == 0 || count < runner
}

/// Whether a wait is of none of so many runners, or for none.
fn is_stranger(count: u64, wait: &Wait) -> bool
    ensures { result ≡ is_stranger count wait.now }
{
    is_no_runner(count, wait.runner) || is_no_runner(count, wait.first)
}

/// The first wait that is of none of so many runners, or for none.
fn first_stranger(count: u64, waits: &[Wait]) -> Option<&Wait>
    ensures { option_copied result ≡ find (is_stranger count) waits.now }
{
    waits.iter().find(|wait| is_stranger(count, wait))
}

/// How many runners a scenario has.
fn runner_count(alloc: Global, scenario: &Scenario) -> Result<u64, AllocError>
    ensures { IfOk result (λ count. count ≡ runner_count scenario.now) }
{
    let (setup, _) = setup_and_others(scenario.events.as_slice());
    let programs = programs_started(alloc, setup)?;
    Ok(programs.len() as u64)
}

/// The fault of a wait that a scenario has no runners for.
fn stranger_fault(alloc: Global, wait: &Wait) -> Result<BadInput, AllocError>
    ensures { IfOk result (λ bad. bad ≡ record { place = wait_text wait.now; cause = Range }) }
{
    let mut place = String::new(alloc);
    push_wait(&mut place, wait)?;
    Ok(BadInput {
        place: Text::new(place),
        cause: Cause::Range,
    })
}

/// Checks that a scenario has the runners of these waits. It fails as `BadWait` with the first wait for which it has not, once it was said how many it
/// has, and as `OutOfMemory` where an allocation failed.
pub(crate) fn check_waits<O: Audience>(
    alloc: Global,
    scenario: &Scenario,
    waits: &[Wait],
    audience: &mut O,
) -> Result<(), ExploreFault>
    ensures none { OnOk result (first_stranger scenario.now waits.now ≡ None) }
    ensures fault { IfErr result (IsWaitFault scenario.now waits.now) }
{
    let count = runner_count(alloc, scenario)?;
    match first_stranger(count, waits) {
        None => Ok(()),
        Some(wait) => {
            let bad = stranger_fault(alloc, wait)?;
            tell_count(alloc, count, audience);
            Err(ExploreFault::BadWait(bad))
        }
    }
}
