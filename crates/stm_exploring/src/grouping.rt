//! Rules that stand side by side and are asked at the same places: one walk is enough for them.
ghost use Rattle.std.specs.Prelude.{◌≡◌, ◌<◌, ◌≤◌, ◌-◌, ◌++◌, ℕ, true, List, length, map, take, drop, get_or, All, IfOk, OnOk};
ghost use Rattle.stm_schedules.specs.Outcomes.{Ends};
ghost use Rattle.stm_schedules.specs.Places.{Place};
ghost use Rattle.stm_explore.specs.declared.waits.Wait.{Wait};
ghost use Rattle.stm_exploring.specs.declared.rules.Rule.{Rule as RuleValue};
ghost use Rattle.stm_exploring.specs.Judging.{AreFoundEach, AreFoundFrom};

use crate::judging::Answer;
use crate::rules::{Rule, RuleAnswer, copy_of};
use std::alloc::{AllocError, Global};
use stm_explore::When;
use stm_program::Program;

/// The programs of these rules.
pub(crate) fn asked_by(alloc: Global, rules: &[Rule]) -> Result<Vec<Program>, AllocError>
    ensures { IfOk result (λ asked. asked.items ≡ map (λ (rule : RuleValue). rule.program) rules.now) }
{
    let mut asked = Vec::with_capacity(alloc, rules.len())?;
    for rule in rules {
        let copy = rule.program.clone()?;
        asked.push(copy)?;
    }
    Ok(asked)
}

/// Adds what is known of these rules, all of which are asked then.
pub(crate) fn push_answers(
    rules: &[Rule],
    when: When,
    found: Vec<Answer>,
    answers: &mut Vec<RuleAnswer>,
) -> Result<(), AllocError>
    requires when { All (λ (rule : RuleValue). rule.when ≡ when) rules.now }
    requires each { length found.items ≡ length rules.now }
    ensures { OnOk result ((waits : List Wait) (p : Place) (ends : Ends) (before : List RuleValue)
        → AreFoundEach when waits (map (λ (rule : RuleValue). rule.program) rules.now) p ends found.items
        → AreFoundFrom waits before p ends answers.old.items → AreFoundFrom waits (before ++ rules.now) p ends answers.new.items) }
{
    let mut index = 0;
    for answer in found {
        let rule = copy_of(&rules[index])?;
        answers.push(RuleAnswer { rule, answer })?;
        index += 1;
    }
    Ok(())
}

/// Whether rules are asked at the same places.
fn is_same(left: When, right: When) -> bool
    ensures { result ≡ true → left ≡ right }
{
    match (left, right) {
        (When::Each, When::Each) | (When::Last, When::Last) => true,
        (When::Each, When::Last) | (When::Last, When::Each) => false,
    }
}

/// Where the first rule stands, behind this one, that is not asked then, as this one is; behind the last one, where all are.
pub(crate) fn end_of_group(rules: &[Rule], from: usize, when: When) -> usize
    requires within { from < length rules.now }
    requires first { (d : RuleValue) → (get_or rules.now from d).when ≡ when }
    ensures further { from < result }
    ensures within { result ≤ length rules.now }
    ensures asked { (k : ℕ) → k < result → (d : RuleValue) → from ≤ k → (get_or rules.now k d).when ≡ when }
{
    for index in from + 1..rules.len() {
        if !is_same(rules[index].when, when) {
            return index;
        }
    }
    rules.len()
}

/// The rules from this one up to another one.
pub(crate) fn group_of(rules: &[Rule], from: usize, end: usize) -> &[Rule]
    requires behind { from ≤ end }
    requires within { end ≤ length rules.now }
    ensures { result.now ≡ take (end - from) (drop from rules.now) }
{
    let left = &rules[from..];
    &left[..end - from]
}
