//! What the command `explore` explains, where it is to: a bad input, and a rule that came to a fault.
ghost use Rattle.std.specs.Prelude.{◌≡◌, false, IfOk, IfSome, string_bytes};
ghost use Rattle.stm_explain.specs.Saying.{Says};
ghost use Rattle.stm_texts.specs.Reading.{scenario_in};
ghost use Rattle.stm_faulted_runs.specs.Rules.{ExplainsRule};
ghost use Rattle.stm_exploring.specs.Command.{verdict_status, SaysMoreOf, SaysOfVerdict};
ghost use Rattle.stm_exploring.specs.Explaining.{Explained, ExplainsFault, ExplainsProgram, ExplainsScenario, schedule_in, ExplainsOnSchedule, ExplainsSearched};

use crate::messages::{report_with, status_of};
use crate::printed::{Printed, SearchAnswer};
use crate::reading::ExploreFault;
use std::alloc::{AllocError, Global};
use stm_devices::Sink;
use stm_explain::{Input, KeptSource, Said, write_text};
use stm_faulted_runs::{Named, rule_explained};

/// The explanation of what is wrong with a scenario or with the program of a rule, where faults are explained; none of another fault.
fn rule_explanation<S, R>(
    alloc: Global,
    explain: bool,
    scenario: &KeptSource<'_, S>,
    keeps: &KeptSource<'_, R>,
    fault: &ExploreFault,
) -> String
    ensures { Explained explain (ExplainsFault (record { name = scenario.now.name.now; text = scenario.now.bytes.items })
        (record { name = keeps.now.name.now; text = keeps.now.bytes.items }) fault.now) (string_bytes result) }
{
    if !explain {
        return String::new(alloc);
    }
    match fault {
        ExploreFault::BadScenario(bad) => scenario.explanation(alloc, Input::Scenario, bad),
        ExploreFault::BadProgram(bad) => keeps.explanation(alloc, Input::Program, bad),
        ExploreFault::BadWait(_) | ExploreFault::OutOfMemory | ExploreFault::Device => {
            String::new(alloc)
        }
    }
}

/// The same of a scenario that is searched without a rule.
fn search_explanation<S>(
    alloc: Global,
    explain: bool,
    scenario: &KeptSource<'_, S>,
    fault: &ExploreFault,
) -> String
    ensures { Explained explain (ExplainsScenario (record { name = scenario.now.name.now; text = scenario.now.bytes.items }) fault.now) (string_bytes result) }
{
    if !explain {
        return String::new(alloc);
    }
    match fault {
        ExploreFault::BadScenario(bad) => scenario.explanation(alloc, Input::Scenario, bad),
        _ => String::new(alloc),
    }
}

/// The same of the program of a rule that is read alone.
fn program_explanation<R>(
    alloc: Global,
    explain: bool,
    rule: &KeptSource<'_, R>,
    fault: &ExploreFault,
) -> String
    ensures { Explained explain (ExplainsProgram (record { name = rule.now.name.now; text = rule.now.bytes.items }) fault.now) (string_bytes result) }
{
    if !explain {
        return String::new(alloc);
    }
    match fault {
        ExploreFault::BadProgram(bad) => rule.explanation(alloc, Input::Program, bad),
        _ => String::new(alloc),
    }
}

/// The schedule of a broken rule, which is printed after the first line.
fn schedule_in(printed: &str) -> Option<&str>
    ensures { IfSome result (λ schedule. schedule.now ≡ schedule_in printed.now) }
{
    match printed.split_once('\n') {
        Some((_, schedule)) => Some(schedule),
        None => None,
    }
}

/// The explanation of a broken rule that comes to a fault after its schedule, by what is printed of that. It fails where an allocation failed.
fn line_by_printed(alloc: Global, name: &str, text: &str, printed: &str) -> Said
    ensures { IfOk result (λ line. ExplainsOnSchedule name.now text.now printed.now (string_bytes line)) }
{
    match schedule_in(printed) {
        Some(schedule) => rule_explained(alloc, &Named { name, text }, schedule),
        None => Err(AllocError),
    }
}

/// The same, by the rule's text. It fails where an allocation failed, now or when the text was kept.
fn rule_on<R>(alloc: Global, keeps: &KeptSource<'_, R>, printed: &str) -> Said
    ensures { IfOk result (λ line. ExplainsOnSchedule keeps.now.name.now keeps.now.bytes.items printed.now (string_bytes line)) }
{
    match keeps.text() {
        Some(text) => line_by_printed(alloc, keeps.name, text, printed),
        None => Err(AllocError),
    }
}

/// The explanation of what a search came to, where faults are explained: of a broken rule that comes to a fault. It fails where an allocation failed,
/// now or before.
pub(crate) fn searched_explanation<R>(
    alloc: Global,
    explain: bool,
    keeps: &KeptSource<'_, R>,
    searched: &Result<Printed, ExploreFault>,
) -> Said
    ensures { IfOk result (λ line. Explained explain (ExplainsSearched (record { name = keeps.now.name.now; text = keeps.now.bytes.items }) searched.now) (string_bytes line)) }
{
    if !explain {
        return Ok(String::new(alloc));
    }
    match searched {
        Ok(printed) => match printed.verdict {
            SearchAnswer::Broken => rule_on(alloc, keeps, printed.text.as_str()),
            SearchAnswer::Kept | SearchAnswer::Open => Ok(String::new(alloc)),
        },
        Err(_) => Ok(String::new(alloc)),
    }
}

/// Says what explains a broken rule.
fn say_rule<E: Sink>(err: &mut E, more: &str)
    requires { E.failed err.old ≡ false }
    ensures { Says (E.held err.old) (E.held err.new) (E.failed err.new) more.now }
{
    let _ = write_text(err, more);
}

/// Says of what a search came to what explains it, where faults are explained, and gives the status.
pub(crate) fn report_verdict<E: Sink>(
    err: &mut E,
    explain: bool,
    verdict: SearchAnswer,
    more: &str,
) -> u8
    requires { E.failed err.old ≡ false }
    ensures status { result ≡ verdict_status verdict }
    ensures says { SaysOfVerdict explain verdict more.now (E.held err.old) (E.held err.new) (E.failed err.new) }
{
    if !explain {
        return status_of(verdict);
    }
    match verdict {
        SearchAnswer::Broken => say_rule(err, more),
        SearchAnswer::Kept | SearchAnswer::Open => {}
    }
    status_of(verdict)
}

/// Says what went wrong with a search for a rule, explains it where faults are explained, and gives the status.
pub(crate) fn report_rule_fault<S, R, E: Sink>(
    alloc: Global,
    explain: bool,
    scenario: &KeptSource<'_, S>,
    keeps: &KeptSource<'_, R>,
    fault: &ExploreFault,
    err: &mut E,
) -> u8
    requires { E.failed err.old ≡ false }
    ensures { SaysMoreOf explain (ExplainsFault (record { name = scenario.now.name.now; text = scenario.now.bytes.items })
        (record { name = keeps.now.name.now; text = keeps.now.bytes.items })) (E.held err.old) (E.held err.new) (E.failed err.new) fault.now result }
{
    let more = rule_explanation(alloc, explain, scenario, keeps, fault);
    report_with(err, fault, more.as_str())
}

/// The same of a search without a rule.
pub(crate) fn report_search_fault<S, E: Sink>(
    alloc: Global,
    explain: bool,
    scenario: &KeptSource<'_, S>,
    fault: &ExploreFault,
    err: &mut E,
) -> u8
    requires { E.failed err.old ≡ false }
    ensures { SaysMoreOf explain (ExplainsScenario (record { name = scenario.now.name.now; text = scenario.now.bytes.items }))
        (E.held err.old) (E.held err.new) (E.failed err.new) fault.now result }
{
    let more = search_explanation(alloc, explain, scenario, fault);
    report_with(err, fault, more.as_str())
}

/// The same of a rule that is read.
pub(crate) fn report_program_fault<R, E: Sink>(
    alloc: Global,
    explain: bool,
    rule: &KeptSource<'_, R>,
    fault: &ExploreFault,
    err: &mut E,
) -> u8
    requires { E.failed err.old ≡ false }
    ensures { SaysMoreOf explain (ExplainsProgram (record { name = rule.now.name.now; text = rule.now.bytes.items }))
        (E.held err.old) (E.held err.new) (E.failed err.new) fault.now result }
{
    let more = program_explanation(alloc, explain, rule, fault);
    report_with(err, fault, more.as_str())
}
