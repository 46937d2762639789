//! What may decide a search that has used its budget up.

use crate::audience::Audience;
use crate::judging::is_open;
use crate::printed::SearchAnswer;
use crate::rules::RuleAnswer;
use crate::setup::is_start;
use std::alloc::Global;
use stm_explain::Said;
use stm_explore::{Wait, When};
use stm_program::Level;
use stm_serial_search::are_orderly;
use stm_texts::WorldEvent;

/// Whether an event starts a run that may send a second commit, after one that failed: at ReadCommitted none fails.
fn may_go_on(event: &WorldEvent) -> bool {
    match event {
        WorldEvent::Start { level, limit, .. } => *level != Level::ReadCommitted && *limit > 1,
        _ => false,
    }
}

/// The line of what may decide a search through these events: a level that compares, too, where serial orders decide then.
fn advice_line(alloc: Global, events: &[WorldEvent], has_orders: bool) -> Said {
    let has_runners = events.iter().filter(|event| is_start(event)).count() > 1;
    let has_limit = events.iter().any(may_go_on);
    let has_level = has_orders && !are_orderly(events);
    let runners = if has_runners { "fewer runners, " } else { "" };
    let limit = if has_limit { "a limit of 1, " } else { "" };
    let level = if has_level {
        "a level that compares, "
    } else {
        ""
    };
    let before_last = if has_runners || has_limit || has_level {
        "or "
    } else {
        ""
    };
    format!(in alloc;
        "the budget is used up: {runners}{limit}{level}{before_last}a larger --budget may decide it"
    )
}

/// Says it. Nothing is said where an allocation fails for it.
fn tell_advice<O: Audience>(
    alloc: Global,
    events: &[WorldEvent],
    has_orders: bool,
    audience: &mut O,
) {
    if let Ok(line) = advice_line(alloc, events, has_orders) {
        audience.hear(line.as_str());
    }
}

/// Says what may decide a search for outcomes through these events, if it has used its budget up: serial orders decide nothing of them.
pub(crate) fn tell_if_open<O: Audience>(
    alloc: Global,
    events: &[WorldEvent],
    verdict: SearchAnswer,
    audience: &mut O,
) {
    if verdict == SearchAnswer::Open {
        tell_advice(alloc, events, false, audience);
    }
}

/// Whether a rule was not decided of which serial orders can decide something: a final is none.
fn is_for_orders(a: &RuleAnswer) -> bool {
    a.rule.when == When::Each && is_open(&a.answer)
}

/// Says what may decide a search for rules through these events, in which these runners wait, if it has used its budget up for one of them. Another level is
/// named where the search is not at all of them.
pub(crate) fn tell_open<O: Audience>(
    alloc: Global,
    events: &[WorldEvent],
    waits: &[Wait],
    answers: &[RuleAnswer],
    has_levels: bool,
    audience: &mut O,
) {
    if answers.iter().any(|a| is_open(&a.answer)) {
        let has_orders = has_levels && waits.is_empty() && answers.iter().any(is_for_orders);
        tell_advice(alloc, events, has_orders, audience);
    }
}
