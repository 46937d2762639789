//! A search about a scenario and rules at each of the four levels.
ghost use Rattle.std.specs.Prelude.{◌≡◌, ◌≤◌, ◌+◌, false, IfOk, OnOk};
ghost use Rattle.stm_devices.specs.declared.transfer.TheConstants.{MOST_READ};
ghost use Rattle.stm_serial_search.specs.Started.{HaveNoStep};
ghost use Rattle.stm_exploring.specs.Judging.{AreFound};
ghost use Rattle.stm_exploring.specs.Levels.{AreFoundAt, ArePrintedAt, SearchesLevels, leveled};

use crate::advice::tell_open;
use crate::asking::put_levels;
use crate::audience::Audience;
use crate::enough::tell_enough;
use crate::heard::{AtLevel, HeardLine, tell_heard};
use crate::level_lines::print_levels;
use crate::printed::Printed;
use crate::reading::{ExploreFault, scenario_of};
use crate::rules::{Rule, RuleAnswer};
use crate::searching::explore_scenario;
use crate::waits::check_waits;
use std::alloc::{AllocError, Global};
use std::mem;
use stm_devices::Source;
use stm_explore::{Budget, Wait};
use stm_history::Sequence;
use stm_program::Level;
use stm_texts::Scenario;

/// What is known of each rule at a level.
#[derive(Drop)]
pub(crate) struct LevelAnswers {
    pub(crate) level: Level,
    pub(crate) answers: Sequence<RuleAnswer>,
}

/// The levels, the weakest first.
pub(crate) const LEVELS: [Level; 4] = [
    Level::ReadCommitted,
    Level::RepeatableReads,
    Level::Serializable,
    Level::SerializableSnapshot,
];

/// Puts each start of a scenario at a level.
fn put_starts(alloc: Global, scenario: &mut Scenario, level: Level)
    ensures { scenario.new ≡ leveled level scenario.old }
{
    let mut events = mem::replace(&mut scenario.events, Sequence::new(alloc)).into_vec();
    put_levels(&mut events, level);
    scenario.events = Sequence::of(events);
}

/// Puts each start of a scenario without steps at a level.
pub(crate) fn put_level(alloc: Global, scenario: &mut Scenario, level: Level)
    requires { HaveNoStep scenario.old.events }
    ensures leveled { scenario.new ≡ leveled level scenario.old }
    ensures stepless { HaveNoStep scenario.new.events }
{
    put_starts(alloc, scenario, level);
}

/// What is known of each rule about a scenario, once its starts are put at a level, in which these runners wait. For each at most so many moves are
/// made. What is said of it is kept, with the level.
fn judge_level<O: Audience>(
    alloc: Global,
    scenario: &mut Scenario,
    level: Level,
    waits: &[Wait],
    rules: &[Rule],
    most: u64,
    heard: &mut Vec<HeardLine>,
    audience: &mut O,
) -> Result<LevelAnswers, AllocError>
    requires { HaveNoStep scenario.old.events }
    ensures leveled { OnOk result (scenario.new ≡ leveled level scenario.old) }
    ensures stepless { OnOk result (HaveNoStep scenario.new.events) }
    ensures level { IfOk result (λ a. a.level ≡ level) }
    ensures found { IfOk result (λ a. AreFound waits.now rules.now scenario.new a.answers) }
{
    put_level(alloc, scenario, level);
    audience.begins(level);
    let observer = AtLevel {
        alloc,
        level,
        heard,
        audience,
    };
    let mut budget = Budget {
        left: most,
        observer,
    };
    let answers = explore_scenario(alloc, scenario, waits, rules, &mut budget)?;
    let events = scenario.events.as_slice();
    let audience = &mut budget.observer;
    tell_open(alloc, events, waits, answers.as_slice(), false, audience);
    Ok(LevelAnswers {
        level,
        answers: Sequence::of(answers),
    })
}

/// What is known of each rule about a scenario at each of these levels. For each at most so many moves are made.
fn judge_levels<O: Audience>(
    alloc: Global,
    scenario: &mut Scenario,
    levels: &[Level],
    waits: &[Wait],
    rules: &[Rule],
    most: u64,
    audience: &mut O,
) -> Result<Vec<LevelAnswers>, AllocError>
    requires { HaveNoStep scenario.old.events }
    ensures { IfOk result (λ at. AreFoundAt levels.now waits.now rules.now scenario.old at.items) }
{
    let mut heard = Vec::new(alloc);
    let mut at = Vec::new(alloc);
    for level in levels {
        let answers = judge_level(
            alloc, scenario, *level, waits, rules, most, &mut heard, audience,
        )?;
        at.push(answers)?;
    }
    tell_heard(alloc, heard.as_slice(), audience);
    Ok(at)
}

/// What is printed of rules about a scenario at each level.
fn search_levels<O: Audience>(
    alloc: Global,
    scenario: &mut Scenario,
    waits: &[Wait],
    rules: &[Rule],
    budget: &mut Budget<O>,
) -> Result<Printed, AllocError>
    requires { HaveNoStep scenario.old.events }
    ensures { IfOk result (ArePrintedAt waits.now rules.now scenario.old) }
{
    let most = budget.left;
    let audience = &mut budget.observer;
    let at = judge_levels(alloc, scenario, &LEVELS, waits, rules, most, audience)?;
    tell_enough(at.as_slice(), &mut budget.observer);
    print_levels(alloc, at.as_slice())
}

/// Reads a scenario from its source to the end, and looks at each level, the weakest first, after which schedules of the scenario with its starts at that
/// level each rule is kept, as `search_for` does.
pub fn search_at_levels<S: Source, O: Audience>(
    alloc: Global,
    scenario: &mut S,
    rules: &[Rule],
    waits: &[Wait],
    budget: &mut Budget<O>,
) -> Result<Printed, ExploreFault>
    requires { S.failed scenario.old ≡ false }
    ensures searched { SearchesLevels waits.now rules.now (S.left scenario.old) (S.failed scenario.new) result }
    ensures bounded { S.reads scenario.new ≤ S.reads scenario.old + MOST_READ }
{
    let mut scenario = scenario_of(alloc, scenario, None, &mut budget.observer)?;
    check_waits(alloc, &scenario, waits, &mut budget.observer)?;
    match search_levels(alloc, &mut scenario, waits, rules, budget) {
        Ok(printed) => Ok(printed),
        Err(_) => Err(ExploreFault::OutOfMemory),
    }
}
