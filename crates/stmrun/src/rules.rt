//! The rules that `explore` asks: those of a source, and those that words name.

use crate::explaining::{has_hidden, kept_json, say_read};
use crate::files::open;
use crate::sources::{JsonFile, is_source, out_of_memory, program_at, rules_at};
use stm_commands::Std;
use stm_compiling::{Rule as SourceRule, unknown_in};
use stm_devices::{ReadFault, read_all};
use stm_exploring::{Level, Rule, When, read_rule_to};
use stm_history::{Sequence, Text};
use stm_storing::Program;

/// A rule of a source, under its name.
fn rule_of(rule: SourceRule) -> Rule {
    let SourceRule {
        name,
        is_final,
        level,
        program,
    } = rule;
    let when = if is_final { When::Last } else { When::Each };
    Rule {
        name: Some(name),
        when,
        program,
        from: level.unwrap_or(Level::ReadCommitted),
    }
}

/// Adds a rule.
fn push_rule(rt: &HostRuntime, asked: &mut Vec<Rule>, rule: Rule) -> Result<(), u8> {
    match asked.push(rule) {
        Ok(()) => Ok(()),
        Err(_) => Err(out_of_memory(rt)),
    }
}

/// Adds the rules of a source.
fn push_rules(
    rt: &HostRuntime,
    asked: &mut Vec<Rule>,
    rules: Sequence<SourceRule>,
) -> Result<(), u8> {
    for rule in rules.into_vec() {
        push_rule(rt, asked, rule_of(rule))?;
    }
    Ok(())
}

/// The rules of a source, to be asked.
pub(crate) fn rules_of(rt: &HostRuntime, rules: Sequence<SourceRule>) -> Result<Vec<Rule>, u8> {
    let mut asked = Vec::new(rt.alloc());
    push_rules(rt, &mut asked, rules)?;
    Ok(asked)
}

/// The program that is read as JSON; or the status, once what is wrong with it was said. It is explained, or is not.
fn rule_program(rt: &HostRuntime, file: &JsonFile<'_>, explain: bool) -> Result<Program, u8> {
    let mut err = Std::new(rt.stderr());
    let mut source = kept_json(rt, file);
    let program = read_rule_to(rt.alloc(), explain, &mut source, &mut err);
    say_read(rt, &source);
    program
}

/// The rule of a program that is read as JSON, without a name.
pub(crate) fn unnamed_rule(
    rt: &HostRuntime,
    file: &JsonFile<'_>,
    explain: bool,
) -> Result<Rule, u8> {
    let program = rule_program(rt, file, explain)?;
    Ok(Rule {
        name: None,
        when: When::Each,
        program,
        from: Level::ReadCommitted,
    })
}

/// The rule of a program that is read as JSON, under a name.
fn read_rule(rt: &HostRuntime, file: &JsonFile<'_>, name: &str, explain: bool) -> Result<Rule, u8> {
    let program = rule_program(rt, file, explain)?;
    match Text::copy_of(rt.alloc(), name) {
        Ok(name) => Ok(Rule {
            name: Some(name),
            when: When::Each,
            program,
            from: Level::ReadCommitted,
        }),
        Err(_) => Err(out_of_memory(rt)),
    }
}

/// The rule of a name among these.
fn named(rules: Sequence<SourceRule>, name: &str) -> Option<SourceRule> {
    for rule in rules.into_vec() {
        if rule.name.as_str() == name {
            return Some(rule);
        }
    }
    None
}

/// Refuses a name that is none of the source of a path, and says which those are.
fn refuse_unknown(rt: &HostRuntime, path: &str, name: &str) -> Result<(), u8> {
    if has_hidden(path) || has_hidden(name) {
        return Ok(());
    }
    let mut input = Std::new(open(rt, path));
    let bytes = match read_all(rt.alloc(), &mut input) {
        Ok(bytes) => bytes,
        Err(ReadFault::OutOfMemory) => return Err(out_of_memory(rt)),
        Err(ReadFault::Device) => return Ok(()),
    };
    match unknown_in(rt.alloc(), bytes.as_slice(), name) {
        Ok(Some(words)) => {
            let _ = eprintln!(rt;
                "error: invalid value '{path}:{name}' for '--keeps <PROGRAM>': no rule or program of {path} has this name: {words}"
            );
            Err(2)
        }
        Ok(None) => Ok(()),
        Err(_) => Err(out_of_memory(rt)),
    }
}

/// The rule of a name, of the source of a path, or its program of that name, which has no parameters.
fn named_rule(rt: &HostRuntime, path: &str, name: &str, explain: bool) -> Result<Rule, u8> {
    let rules = rules_at(rt, path, explain)?;
    match named(rules, name) {
        Some(rule) => Ok(rule_of(rule)),
        None => {
            refuse_unknown(rt, path, name)?;
            let program = program_at(rt, path, name, &[], explain)?;
            read_rule(rt, &program.file, name, explain)
        }
    }
}

/// The path and the name of a word that names a rule or a program of a source.
pub(crate) fn named_in(word: &str) -> Option<(&str, &str)> {
    match word.rsplit_once(':') {
        Some((path, name)) if is_source(path) => Some((path, name)),
        _ => None,
    }
}

/// Whether a word is the path of a program that is JSON.
pub(crate) fn is_json(word: &str) -> bool {
    !is_source(word) && named_in(word).is_none()
}

/// The name of the rule that a file has: that of the file, without its end.
fn stem(path: &str) -> &str {
    let file = match path.rsplit_once('/') {
        Some((_, file)) => file,
        None => path,
    };
    match file.split_once('.') {
        Some((stem, _)) => stem,
        None => file,
    }
}

/// Adds the rules that a word names: that of a file of JSON, all of a source, or one rule or program of a source, `FILE.stm:NAME`.
fn push_named(
    rt: &HostRuntime,
    asked: &mut Vec<Rule>,
    word: &str,
    explain: bool,
) -> Result<(), u8> {
    if is_source(word) {
        let rules = rules_at(rt, word, explain)?;
        return push_rules(rt, asked, rules);
    }
    let rule = match named_in(word) {
        Some((path, name)) => named_rule(rt, path, name, explain)?,
        None => read_rule(rt, &JsonFile::Json(word), stem(word), explain)?,
    };
    push_rule(rt, asked, rule)
}

/// The rules that words name.
pub(crate) fn rules_named(
    rt: &HostRuntime,
    words: &[&str],
    explain: bool,
) -> Result<Vec<Rule>, u8> {
    let mut asked = Vec::new(rt.alloc());
    for word in words {
        push_named(rt, &mut asked, word, explain)?;
    }
    Ok(asked)
}
