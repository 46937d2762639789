//! The rules that a search asks for, and what is known of each.
ghost use Rattle.std.specs.Prelude.{◌≡◌, IfOk};
ghost use Rattle.std.specs.List.{find, list_all, list_any};
ghost use Rattle.std.specs.Option.{option_copied};
ghost use Rattle.stm_exploring.specs.Judging.{alone, is_broken, is_kept, verdict_of, verdict_of_all, verdict_of_explored};

use crate::judging::Answer;
use crate::printed::SearchAnswer;
use std::alloc::AllocError;
use stm_explore::{Explored, When};
use stm_history::Text;
use stm_program::{Level, Program};

/// A rule that a search asks for.
#[derive(Debug, Drop)]
pub struct Rule {
    /// The name that its lines end in, if any.
    pub name: Option<Text>,
    /// When it is asked.
    pub when: When,
    /// It is kept where this program, run alone on what it sees, comes to its last statement.
    pub program: Program,
    /// The weakest level at which it is to be kept.
    pub from: Level,
}

/// What is known of a rule.
#[derive(Drop)]
pub(crate) struct RuleAnswer {
    pub(crate) rule: Rule,
    pub(crate) answer: Answer,
}

/// The rule of a program, without a name.
pub(crate) fn alone(program: Program) -> Rule
    ensures { result ≡ alone program }
{
    Rule {
        name: None,
        when: When::Each,
        program,
        from: Level::ReadCommitted,
    }
}

/// A copy of a rule's name.
fn copy_of_name(name: &Option<Text>) -> Result<Option<Text>, AllocError>
    ensures { IfOk result (λ copy. copy ≡ name.now) }
{
    match name {
        Some(name) => {
            let copy = name.clone()?;
            Ok(Some(copy))
        }
        None => Ok(None),
    }
}

/// A copy of a rule.
pub(crate) fn copy_of(rule: &Rule) -> Result<Rule, AllocError>
    ensures { IfOk result (λ copy. copy ≡ rule.now) }
{
    let name = copy_of_name(&rule.name)?;
    let program = rule.program.clone()?;
    Ok(Rule {
        name,
        when: rule.when,
        program,
        from: rule.from,
    })
}

/// What a search through schedules came to.
fn verdict_of_explored(explored: &Explored) -> SearchAnswer
    ensures { result ≡ verdict_of_explored explored.now }
{
    match explored {
        Explored::Always { .. } => SearchAnswer::Kept,
        Explored::Broken { .. } => SearchAnswer::Broken,
        Explored::Open { .. } => SearchAnswer::Open,
    }
}

/// What an answer comes to.
fn verdict_of(answer: &Answer) -> SearchAnswer
    ensures { result ≡ verdict_of answer.now }
{
    match answer {
        Answer::BySchedules(explored) => verdict_of_explored(explored),
        Answer::AlwaysByOrders => SearchAnswer::Kept,
        Answer::BrokenByOrder(_) => SearchAnswer::Broken,
    }
}

/// Whether a rule is always kept.
pub(crate) fn is_kept(a: &RuleAnswer) -> bool
    ensures { result ≡ is_kept a.now }
{
    match verdict_of(&a.answer) {
        SearchAnswer::Kept => true,
        SearchAnswer::Broken | SearchAnswer::Open => false,
    }
}

/// Whether a rule is broken.
pub(crate) fn is_broken(a: &RuleAnswer) -> bool
    ensures { result ≡ is_broken a.now }
{
    match verdict_of(&a.answer) {
        SearchAnswer::Broken => true,
        SearchAnswer::Kept | SearchAnswer::Open => false,
    }
}

/// Whether each of these rules is always kept.
pub(crate) fn are_kept(answers: &[RuleAnswer]) -> bool
    ensures { result ≡ list_all is_kept answers.now }
{
    answers.iter().all(is_kept)
}

/// Whether one of these rules is broken.
fn has_broken(answers: &[RuleAnswer]) -> bool
    ensures { result ≡ list_any is_broken answers.now }
{
    answers.iter().any(is_broken)
}

/// Whether one of these rules is always kept.
pub(crate) fn has_kept(answers: &[RuleAnswer]) -> bool {
    answers.iter().any(is_kept)
}

/// The first of these rules that is broken.
pub(crate) fn first_broken(answers: &[RuleAnswer]) -> Option<&RuleAnswer>
    ensures { option_copied result ≡ find is_broken answers.now }
{
    answers.iter().find(|a| is_broken(a))
}

/// What answers about rules come to.
pub(crate) fn verdict_of_all(answers: &[RuleAnswer]) -> SearchAnswer
    ensures { result ≡ verdict_of_all answers.now }
{
    if has_broken(answers) {
        return SearchAnswer::Broken;
    }
    if are_kept(answers) {
        return SearchAnswer::Kept;
    }
    SearchAnswer::Open
}
