//! The command `explore` on the files of paths.
ghost use Rattle.std.specs.Prelude.{◌≡◌, false};

use crate::explaining::{kept_json, name_of, say_read, say_unwritten};
use crate::files::is_missing;
use crate::found::{Form, Table, only_level, print_found, run_rules_in, runners_of};
use crate::naming::{RUNNERS, with_names};
use crate::noting::{Kept, Noting};
use crate::rules::{is_json, named_in, rules_named, rules_of, unnamed_rule};
use crate::ruling::Question;
use crate::sources::{
    Given, JsonFile, NamedSource, SourceText, out_of_memory, say_leases, say_unasked, source_at,
    source_text,
};
use crate::terminals::{Told, close, shown_budget};
use crate::waits::{read_waits, refuse_beside, refuse_levels, refuse_waits};
use std::alloc::AllocError;
use std::io::Write;
use std::slice;
use stm_arguments::{ExploreWords, Levels};
use stm_commands::Std;
use stm_compiling::{Beside, Rule as SourceRule, Wait as SourceWait};
use stm_exploring::{Level, Question as Sought, Rule, Wait, explore_to, outcomes_to};

/// What is searched, and how.
#[derive(Clone, Copy)]
pub(crate) struct Search<'a, 'w> {
    /// The path of the scenario.
    pub(crate) path: &'w str,
    /// The words that name rules.
    pub(crate) keeps: &'a [&'w str],
    /// Which runners wait for which others, as it is spelled.
    pub(crate) after: Option<&'w str>,
    /// The levels at which the starts are taken.
    pub(crate) levels: Levels,
    /// Whether no rule is asked, and a schedule printed of each outcome.
    pub(crate) witness: bool,
    /// Whether no rule is asked, but whether serial orders come to each outcome.
    pub(crate) serial: bool,
    /// At most so many moves are made, and the runners are named so.
    pub(crate) told: Told<'a>,
    /// Whether a fault is explained.
    pub(crate) explain: bool,
    /// In what form schedules are printed.
    pub(crate) form: Form<'a>,
}

/// Looks through the interleavings of a scenario for one that breaks the rule of a file, at a level, or at each start's own.
fn run_rule(
    rt: &HostRuntime,
    search: &Search<'_, '_>,
    scenario: &JsonFile<'_>,
    rule: &JsonFile<'_>,
    waits: &[Wait],
    level: Option<Level>,
) -> u8 {
    let explain = search.explain;
    let mut scenario = kept_json(rt, scenario);
    let mut rule = kept_json(rt, rule);
    let mut out = Std::new(Noting::new(rt.stdout()));
    let mut err = Std::new(rt.stderr());
    let mut budget = shown_budget(rt, search.told, explain);
    let status = explore_to(
        rt.alloc(),
        explain,
        &mut scenario,
        &mut rule,
        waits,
        level,
        &mut budget,
        &mut out,
        &mut err,
    );
    let status = close(&mut budget, status);
    say_read(rt, &scenario);
    say_read(rt, &rule);
    if explain {
        say_unwritten(rt, out.device.failure);
    }
    status
}

/// Looks through the interleavings of a scenario for one that breaks each of these rules.
fn ask(
    rt: &HostRuntime,
    search: &Search<'_, '_>,
    scenario: &JsonFile<'_>,
    rules: &[Rule],
    waits: &[Wait],
) -> u8 {
    let question = Question {
        scenario,
        rules,
        waits,
        told: search.told,
    };
    run_rules_in(rt, &question, search.levels, search.form, search.explain)
}

/// What is asked of a scenario without a rule.
fn question_of(search: &Search<'_, '_>) -> Sought {
    if search.serial {
        match search.levels {
            Levels::All => Sought::SerialLevels,
            Levels::Own | Levels::One(_) => Sought::Serial,
        }
    } else if search.witness {
        Sought::Witnesses
    } else {
        Sought::Outcomes
    }
}

/// Goes through the interleavings of a scenario.
fn run_outcomes<O: Write + Drop>(
    rt: &HostRuntime,
    search: &Search<'_, '_>,
    scenario: &JsonFile<'_>,
    out: &mut Std<Noting<O>>,
) -> u8
    requires { out.old.failed ≡ false }
{
    let explain = search.explain;
    let mut scenario = kept_json(rt, scenario);
    let mut err = Std::new(rt.stderr());
    let mut budget = shown_budget(rt, search.told, explain);
    let status = outcomes_to(
        rt.alloc(),
        explain,
        question_of(search),
        &mut scenario,
        only_level(search.levels),
        &mut budget,
        out,
        &mut err,
    );
    let status = close(&mut budget, status);
    say_read(rt, &scenario);
    if explain {
        say_unwritten(rt, out.device.failure);
    }
    status
}

/// Goes through the interleavings of a scenario, and prints what was found in the form that is asked for.
fn run_outcomes_in(rt: &HostRuntime, search: &Search<'_, '_>, scenario: &JsonFile<'_>) -> u8 {
    if let Form::Lines = search.form {
        let mut out = Std::new(Noting::new(rt.stdout()));
        return run_outcomes(rt, search, scenario, &mut out);
    }
    let mut out = Std::new(Noting::new(Kept::new(rt.alloc())));
    let status = run_outcomes(rt, search, scenario, &mut out);
    let printed = out.device.into_device().into_bytes();
    print_found(
        rt,
        search.form,
        search.levels,
        printed,
        status,
        search.explain,
    )
}

/// Goes through the interleavings of a scenario; all levels are refused, unless it is looked for serial orders.
fn search_outcomes(
    rt: &HostRuntime,
    search: &Search<'_, '_>,
    scenario: &JsonFile<'_>,
) -> Result<u8, u8> {
    match search.levels {
        Levels::All if !search.serial => Err(refuse_levels(rt)),
        Levels::Own | Levels::One(_) | Levels::All => Ok(run_outcomes_in(rt, search, scenario)),
    }
}

/// Looks through the interleavings of a scenario for one that breaks the rule of a path.
fn search_rule(
    rt: &HostRuntime,
    search: &Search<'_, '_>,
    scenario: &JsonFile<'_>,
    path: &str,
    waits: &[Wait],
) -> Result<u8, u8> {
    let rule = JsonFile::Json(path);
    match (search.levels, search.form) {
        (Levels::Own, Form::Lines) => Ok(run_rule(rt, search, scenario, &rule, waits, None)),
        (Levels::One(level), Form::Lines) => {
            Ok(run_rule(rt, search, scenario, &rule, waits, Some(level)))
        }
        _ => {
            let rule = unnamed_rule(rt, &rule, search.explain)?;
            Ok(ask(rt, search, scenario, slice::from_ref(&rule), waits))
        }
    }
}

/// Whether a word names this rule of the source of a path, or all rules of it.
fn is_named(word: &str, path: &str, rule: &SourceRule) -> bool {
    match named_in(word) {
        Some((front, name)) => front == path && name == rule.name.as_str(),
        None => word == path,
    }
}

/// Says which rules of the scenario's source are not asked, where words name those that are.
fn say_others(rt: &HostRuntime, search: &Search<'_, '_>, rules: &[SourceRule]) -> Result<(), u8> {
    for rule in rules {
        if !search
            .keeps
            .iter()
            .any(|word| is_named(word, search.path, rule))
        {
            say_unasked(rt, slice::from_ref(rule), &[], &[])?;
        }
    }
    Ok(())
}

/// Refuses words that are names of the scenario's own rules, and of no files.
fn refuse_titles(
    rt: &HostRuntime,
    search: &Search<'_, '_>,
    rules: &[SourceRule],
) -> Result<(), u8> {
    for rule in rules {
        let name = rule.name.as_str();
        if search.keeps.iter().any(|word| *word == name) && is_missing(rt, name) {
            let path = name_of(search.path);
            let _ = eprintln!(rt;
                "error: invalid value '{name}' for '--keeps <PROGRAM>': no file has this name; a rule of {path} has it: --keeps {path}:{name}"
            );
            return Err(2);
        }
    }
    Ok(())
}

/// Says that a search without a rule takes no runner that waits, by the first one that does.
fn say_waiting(
    rt: &HostRuntime,
    search: &Search<'_, '_>,
    wait: SourceWait,
) -> Result<(), AllocError> {
    let (runner, ended) = (wait.runner, wait.ended);
    let line = format!(in rt.alloc();
        "stmrun: runner {runner} waits for runner {ended}: such a file is asked rules and finals alone; for --serial, --witness and outcomes take out the after"
    )?;
    let line = with_names(rt.alloc(), RUNNERS, search.told.runners, line.as_str())?;
    let _ = rt.eprintln(line.as_str());
    Ok(())
}

/// Refuses runners that wait where no rule is asked.
fn refuse_waiting(
    rt: &HostRuntime,
    search: &Search<'_, '_>,
    waits: &[SourceWait],
) -> Result<(), u8> {
    if search.after.is_some() {
        return Err(refuse_waits(rt));
    }
    match waits.first() {
        None => Ok(()),
        Some(wait) => match say_waiting(rt, search, *wait) {
            Ok(()) => Err(2),
            Err(_) => Err(out_of_memory(rt)),
        },
    }
}

/// Looks through the interleavings of a scenario for one that breaks a rule that words name. What its source has beside it says who waits.
fn search_named(
    rt: &HostRuntime,
    search: &Search<'_, '_>,
    scenario: &JsonFile<'_>,
    beside: &Beside,
) -> Result<u8, u8> {
    let waits = read_waits(rt, search.after, beside, search.told.runners)?;
    refuse_titles(rt, search, beside.rules.as_slice())?;
    say_others(rt, search, beside.rules.as_slice())?;
    match search.keeps {
        [word] if is_json(word) => search_rule(rt, search, scenario, word, waits.as_slice()),
        words => {
            let rules = rules_named(rt, words, search.explain)?;
            Ok(ask(rt, search, scenario, rules.as_slice(), waits.as_slice()))
        }
    }
}

/// Goes through the interleavings of a scenario for what they come to. It is said which rules of its source are not asked.
fn search_without(
    rt: &HostRuntime,
    search: &Search<'_, '_>,
    scenario: &JsonFile<'_>,
    beside: &Beside,
) -> Result<u8, u8> {
    say_unasked(rt, beside.rules.as_slice(), &[], &[])?;
    refuse_waiting(rt, search, beside.waits.as_slice())?;
    search_outcomes(rt, search, scenario)
}

/// Looks through the interleavings of a scenario for one that breaks a rule of its source, or where that has none for what they come to.
fn search_own(
    rt: &HostRuntime,
    search: &Search<'_, '_>,
    scenario: &JsonFile<'_>,
    beside: Beside,
) -> Result<u8, u8> {
    if search.witness || search.serial || beside.rules.as_slice().is_empty() {
        return search_without(rt, search, scenario, &beside);
    }
    let waits = read_waits(rt, search.after, &beside, search.told.runners)?;
    let Beside { rules, .. } = beside;
    let rules = rules_of(rt, rules)?;
    Ok(ask(rt, search, scenario, rules.as_slice(), waits.as_slice()))
}

/// Whether standard input is at most one of the scenario of a path and the rules that words name.
fn has_one_input(path: &str, words: &[&str]) -> bool {
    let count = words.iter().filter(|word| **word == "-").count();
    count == 0 || (count == 1 && path != "-")
}

/// Refuses what is not asked beside a rule, where words name one, and the one question beside the other.
fn refuse_rules(rt: &HostRuntime, words: &ExploreWords<'_>) -> Result<(), u8> {
    if words.serial && words.witness {
        return Err(refuse_beside(rt, "--serial", "--witness"));
    }
    if words.keeps.as_slice().is_empty() {
        return Ok(());
    }
    if words.serial {
        return Err(refuse_beside(rt, "--serial", "--keeps <PROGRAM>"));
    }
    if words.witness {
        return Err(refuse_beside(rt, "--witness", "--keeps <PROGRAM>"));
    }
    Ok(())
}

/// The form that is asked for, or that of the source of the scenario, where it has one.
fn form_of<'a>(words: &ExploreWords<'_>, source: Option<&'a SourceText>) -> Form<'a> {
    match (words.format, source) {
        (Some("text"), _) => Form::Text(Table {
            source,
            width: words.width,
            has_rules: false,
            waits: &[],
        }),
        (_, Some(source)) => Form::Source(source),
        (_, None) => Form::Lines,
    }
}

/// The source of the scenario, where it has one, under the name of its path.
fn source_of<'a>(
    path: &'a str,
    has_rules: bool,
    source: Option<&'a SourceText>,
) -> Option<NamedSource<'a>> {
    match source {
        Some(source) => Some(NamedSource {
            name: name_of(path),
            text: source.text.as_str(),
            has_rules,
        }),
        None => None,
    }
}

/// How many moves may be made, and how the runners of a path's scenario are named.
fn told_of<'a>(
    words: &ExploreWords<'_>,
    path: &'a str,
    source: Option<&'a SourceText>,
) -> Told<'a> {
    Told {
        moves: words.budget,
        runners: runners_of(source),
        source: source_of(path, words.keeps.as_slice().is_empty(), source),
        strict: words.strict,
    }
}

/// Looks through the interleavings of a path's scenario for one that breaks a rule, one that words name, or where there are none one of its source, or
/// where that has none for what they come to. Only one of the scenario and the rules can be standard input.
pub(crate) fn run_search(
    rt: &HostRuntime,
    words: &ExploreWords<'_>,
    explain: bool,
) -> Result<u8, u8> {
    if !has_one_input(words.scenario, words.keeps.as_slice()) {
        let _ = rt.eprintln("stmrun: standard input can be only one of SCENARIO and PROGRAM");
        return Err(2);
    }
    refuse_rules(rt, words)?;
    let given = source_at(rt, words.scenario, explain)?;
    if explain {
        say_leases(rt, &given, RUNNERS);
    }
    let Given {
        scenario,
        beside,
        text,
    } = given;
    let source = source_text(rt, text, &beside)?;
    let search = Search {
        path: words.scenario,
        keeps: words.keeps.as_slice(),
        after: words.after,
        levels: words.levels,
        witness: words.witness,
        serial: words.serial,
        told: told_of(words, words.scenario, source.as_ref()),
        explain,
        form: form_of(words, source.as_ref()),
    };
    if search.keeps.is_empty() {
        search_own(rt, &search, &scenario, beside)
    } else {
        search_named(rt, &search, &scenario, &beside)
    }
}
