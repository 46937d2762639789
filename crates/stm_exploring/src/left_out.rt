//! What is said of events that the schedule which is printed does not have: they are no part of the scenario then, which may be searched again.

use crate::audience::Audience;
use crate::judging::Answer;
use crate::refused::event_words;
use crate::rules::{RuleAnswer, first_broken};
use crate::setup::setup_and_others;
use std::alloc::{AllocError, Global};
use stm_explain::Said;
use stm_explore::{Explored, Move};
use stm_texts::{Scenario, WorldEvent};

/// The schedule that breaks a rule, where one does.
fn moves_of(answer: &Answer) -> &[Move] {
    match answer {
        Answer::BySchedules(Explored::Broken { moves, .. }) => moves.as_slice(),
        Answer::BrokenByOrder(found) => found.moves.as_slice(),
        _ => &[],
    }
}

/// Whether a move is one of the others.
fn is_other(chosen: &Move) -> bool {
    matches!(chosen, Move::Other)
}

/// What the others have yet to bring behind these moves.
fn left_behind<'a>(others: &'a [WorldEvent], moves: &[Move]) -> &'a [WorldEvent] {
    let brought = moves.iter().filter(|chosen| is_other(chosen)).count();
    others.get(brought..).unwrap_or(&[])
}

/// What is said of the events behind the first one that is left out.
fn behind_words(alloc: Global, count: usize) -> Said {
    match count {
        0 => Ok(String::new(alloc)),
        1 => String::from_str(alloc, ", and the event behind it"),
        _ => format!(in alloc; ", and the {count} events behind it"),
    }
}

/// The line that says so of a first event and these ones behind it.
fn left_line(alloc: Global, first: &WorldEvent, behind: &[WorldEvent]) -> Said {
    let first = event_words(alloc, first)?;
    let first = first.as_str();
    let behind = behind_words(alloc, behind.len())?;
    let behind = behind.as_str();
    format!(in alloc; "not in this schedule, and left out: {first}{behind}")
}

/// Says which events of the others are not in the schedule that breaks the first rule that is broken. Nothing is said where an allocation fails for it.
pub(crate) fn tell_left<O: Audience>(
    alloc: Global,
    scenario: &Scenario,
    answers: &[RuleAnswer],
    audience: &mut O,
) {
    let Some(broken) = first_broken(answers) else {
        return;
    };
    let (_, others) = setup_and_others(scenario.events.as_slice());
    if let Some((first, behind)) = left_behind(others, moves_of(&broken.answer)).split_first() {
        if let Ok(line) = left_line(alloc, first, behind) {
            audience.hear(line.as_str());
        }
    }
}
