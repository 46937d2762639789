//! What is said of that for which a scenario has no place.
ghost use Rattle.std.specs.Prelude.{◌≡◌, ◌++◌, map, IfOk, OnOk, string_bytes};
ghost use Rattle.stm_program_source.specs.Texts.{joined};
ghost use Rattle.stm_compiling.specs.Notes as spec;

use std::alloc::{AllocError, Global};
use stm_explain::Said;
use stm_history::Text;
use stm_source::{Rule, Wait};

/// The word with which a rule or a final begins.
fn word_of(rule: &Rule) -> &'static str
    ensures { result.now ≡ spec.rule_word rule.now.is_final }
{
    if rule.is_final { "finally " } else { "rule " }
}

/// The line that what begins with a word and has a name is not asked.
fn unasked(alloc: Global, word: &str, name: &str) -> Said
    ensures { IfOk result (λ note. string_bytes note ≡ spec.unasked word.now name.now) }
{
    format!(in alloc; "stmrun: {word}{name} is not asked\n")
}

/// The line that a rule is not asked.
fn rule_note(alloc: Global, rule: &Rule) -> Said
    ensures { IfOk result (λ note. string_bytes note ≡ spec.rule_note rule.now) }
{
    unasked(alloc, word_of(rule), rule.name.as_str())
}

/// Adds a line for each rule, that it is not asked.
fn push_rule_notes(alloc: Global, notes: &mut String, rules: &[Rule]) -> Result<(), AllocError>
    ensures { OnOk result (string_bytes notes.new ≡ string_bytes notes.old ++ joined (map spec.rule_note rules.now)) }
{
    for rule in rules {
        let note = rule_note(alloc, rule)?;
        notes.push_str(note.as_str())?;
    }
    Ok(())
}

/// The line that a runner does not wait for another.
fn wait_note(alloc: Global, wait: &Wait) -> Said
    ensures { IfOk result (λ note. string_bytes note ≡ spec.wait_note wait.now) }
{
    let runner = wait.runner;
    let ended = wait.ended;
    format!(in alloc; "stmrun: runner {runner} does not wait for runner {ended}\n")
}

/// Adds a line for each runner, that it does not wait for another.
fn push_wait_notes(alloc: Global, notes: &mut String, waits: &[Wait]) -> Result<(), AllocError>
    ensures { OnOk result (string_bytes notes.new ≡ string_bytes notes.old ++ joined (map spec.wait_note waits.now)) }
{
    for wait in waits {
        let note = wait_note(alloc, wait)?;
        notes.push_str(note.as_str())?;
    }
    Ok(())
}

/// What is said of rules that are not asked, and of runners that do not wait: a line for each. It fails only when out of memory.
pub fn notes_of(alloc: Global, rules: &[Rule], waits: &[Wait]) -> Result<Text, AllocError>
    ensures { IfOk result (λ notes. notes ≡ spec.notes_of rules.now waits.now) }
{
    let mut notes = String::new(alloc);
    push_rule_notes(alloc, &mut notes, rules)?;
    push_wait_notes(alloc, &mut notes, waits)?;
    Ok(Text::new(notes))
}
