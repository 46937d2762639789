//! What is printed of answers about rules.
ghost use Rattle.std.specs.Prelude.{◌≡◌, ◌++◌, map, IfOk, OnOk, string_bytes};
ghost use Rattle.std.specs.List.{concat, find};
ghost use Rattle.stm_exploring.specs.Exploring.{printed};
ghost use Rattle.stm_exploring.specs.Judging.{answer_text, answers_text, broken_text, explored_schedule, is_broken, schedule_text};

use crate::judging::Answer;
use crate::lines::push_answer;
use crate::printed::Printed;
use crate::rules::{RuleAnswer, first_broken, verdict_of_all};
use crate::schedule_lines::push_scheduled;
use std::alloc::{AllocError, Global};
use stm_explain::Said;
use stm_explore::Explored;
use stm_history::Text;
use stm_texts::Scenario;

/// Adds the lines of answers.
fn push_answers(alloc: Global, text: &mut String, answers: &[RuleAnswer]) -> Result<(), AllocError>
    ensures { OnOk result (string_bytes text.new ≡ string_bytes text.old ++ concat (map answer_text answers.now)) }
{
    for a in answers {
        push_answer(alloc, text, a)?;
    }
    Ok(())
}

/// Adds the line of the scenario with the schedule that a search found, if it breaks the rule.
fn push_explored(
    alloc: Global,
    text: &mut String,
    scenario: &Scenario,
    explored: &Explored,
) -> Result<(), AllocError>
    ensures { OnOk result (string_bytes text.new ≡ string_bytes text.old ++ explored_schedule scenario.now explored.now) }
{
    match explored {
        Explored::Broken { moves, .. } => push_scheduled(alloc, text, scenario, moves.as_slice()),
        Explored::Always { .. } | Explored::Open { .. } => Ok(()),
    }
}

/// Adds the line of the scenario with the schedule that breaks a rule, where one does.
fn push_schedule(
    alloc: Global,
    text: &mut String,
    scenario: &Scenario,
    answer: &Answer,
) -> Result<(), AllocError>
    ensures { OnOk result (string_bytes text.new ≡ string_bytes text.old ++ schedule_text scenario.now answer.now) }
{
    match answer {
        Answer::BySchedules(explored) => push_explored(alloc, text, scenario, explored),
        Answer::AlwaysByOrders => Ok(()),
        Answer::BrokenByOrder(found) => {
            push_scheduled(alloc, text, scenario, found.moves.as_slice())
        }
    }
}

/// Adds the line of the scenario with the schedule that breaks the first rule that is broken.
fn push_broken(
    alloc: Global,
    text: &mut String,
    scenario: &Scenario,
    answers: &[RuleAnswer],
) -> Result<(), AllocError>
    ensures { OnOk result (string_bytes text.new ≡ string_bytes text.old ++ broken_text scenario.now (find is_broken answers.now)) }
{
    match first_broken(answers) {
        Some(a) => push_schedule(alloc, text, scenario, &a.answer),
        None => Ok(()),
    }
}

/// What is printed of answers about a scenario.
fn answers_text(alloc: Global, scenario: &Scenario, answers: &[RuleAnswer]) -> Said
    ensures { IfOk result (λ text. string_bytes text ≡ answers_text scenario.now answers.now) }
{
    let mut text = String::new(alloc);
    push_answers(alloc, &mut text, answers)?;
    push_broken(alloc, &mut text, scenario, answers)?;
    Ok(text)
}

/// What is printed of answers about a scenario, with what they come to.
pub(crate) fn print(
    alloc: Global,
    scenario: &Scenario,
    answers: &[RuleAnswer],
) -> Result<Printed, AllocError>
    ensures { IfOk result (λ p. p ≡ printed scenario.now answers.now) }
{
    let text = answers_text(alloc, scenario, answers)?;
    Ok(Printed {
        verdict: verdict_of_all(answers),
        text: Text::new(text),
    })
}
