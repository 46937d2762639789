//! Searches for several rules, at one level or at each.
ghost use Rattle.std.specs.Prelude.{◌≡◌, false};

use crate::explaining::{kept_json, say_read, say_unwritten};
use crate::noting::Noting;
use crate::sources::JsonFile;
use crate::terminals::{Told, close, shown_budget};
use std::io::Write;
use stm_arguments::Levels;
use stm_commands::Std;
use stm_exploring::{Budget, Level, Nobody, Rule, Wait, explore_levels_to, explore_rules_to};

/// What is searched, and for what.
#[derive(Clone, Copy)]
pub(crate) struct Question<'a> {
    /// The scenario.
    pub(crate) scenario: &'a JsonFile<'a>,
    /// The rules.
    pub(crate) rules: &'a [Rule],
    /// Which runners wait for which others.
    pub(crate) waits: &'a [Wait],
    /// How many moves may be made, and how runners are named.
    pub(crate) told: Told<'a>,
}

/// Looks for rules at a level, or at each start's own. A fault is explained, or is not.
fn search<O: Write + Drop>(
    rt: &HostRuntime,
    question: &Question<'_>,
    level: Option<Level>,
    explain: bool,
    out: &mut Std<Noting<O>>,
) -> u8
    requires { out.old.failed ≡ false }
{
    let mut scenario = kept_json(rt, question.scenario);
    let mut err = Std::new(rt.stderr());
    let mut budget = shown_budget(rt, question.told, explain);
    let status = explore_rules_to(
        rt.alloc(),
        explain,
        &mut scenario,
        question.rules,
        question.waits,
        level,
        &mut budget,
        out,
        &mut err,
    );
    let status = close(&mut budget, status);
    say_read(rt, &scenario);
    if explain {
        say_unwritten(rt, out.device.failure);
    }
    status
}

/// Looks for rules at each level. A fault is explained, or is not.
fn search_levels<O: Write + Drop>(
    rt: &HostRuntime,
    question: &Question<'_>,
    explain: bool,
    out: &mut Std<Noting<O>>,
) -> u8
    requires { out.old.failed ≡ false }
{
    let mut scenario = kept_json(rt, question.scenario);
    let mut err = Std::new(rt.stderr());
    let mut budget = shown_budget(rt, question.told, explain);
    let status = explore_levels_to(
        rt.alloc(),
        explain,
        &mut scenario,
        question.rules,
        question.waits,
        &mut budget,
        out,
        &mut err,
    );
    let status = close(&mut budget, status);
    say_read(rt, &scenario);
    if explain {
        say_unwritten(rt, out.device.failure);
    }
    status
}

/// Looks through the interleavings of a scenario for one that breaks a rule, for each of these rules. A fault is explained, or is not.
pub(crate) fn run_rules<O: Write + Drop>(
    rt: &HostRuntime,
    question: &Question<'_>,
    levels: Levels,
    explain: bool,
    out: &mut Std<Noting<O>>,
) -> u8
    requires { out.old.failed ≡ false }
{
    match levels {
        Levels::Own => search(rt, question, None, explain, out),
        Levels::One(level) => search(rt, question, Some(level), explain, out),
        Levels::All => search_levels(rt, question, explain, out),
    }
}

/// The same at one level, of which nothing is said on standard error.
pub(crate) fn search_silently<O: Write + Drop>(
    rt: &HostRuntime,
    question: &Question<'_>,
    level: Level,
    out: &mut Std<Noting<O>>,
) -> u8
    requires { out.old.failed ≡ false }
{
    let mut scenario = kept_json(rt, question.scenario);
    let said: Vec<u8> = Vec::new(rt.alloc());
    let mut err = Std::new(said);
    let mut budget = Budget {
        left: question.told.moves,
        observer: Nobody,
    };
    explore_rules_to(
        rt.alloc(),
        false,
        &mut scenario,
        question.rules,
        question.waits,
        Some(level),
        &mut budget,
        out,
        &mut err,
    )
}
