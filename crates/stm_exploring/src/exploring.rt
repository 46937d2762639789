//! A search about a scenario and rules, from their sources to what is printed.
ghost use Rattle.std.specs.Prelude.{◌≡◌, ◌≤◌, ◌+◌, [], ◌∷◌, false, IfErr, IfOk};
ghost use Rattle.stm_devices.specs.declared.transfer.TheConstants.{MOST_READ};
ghost use Rattle.stm_serial_search.specs.Started.{HaveNoStep};
ghost use Rattle.stm_exploring.specs.declared.reading.ExploreFault.TheVariants.{OutOfMemory};
ghost use Rattle.stm_exploring.specs.Exploring.{IsPrinted, Searches, SearchesFor};
ghost use Rattle.stm_exploring.specs.Judging.{alone};

use crate::audience::Audience;
use crate::printed::Printed;
use crate::reading::{ExploreFault, program_of, scenario_of};
use crate::rules::{Rule, alone};
use crate::searching::search;
use crate::waits::check_waits;
use std::alloc::Global;
use std::slice;
use stm_devices::Source;
use stm_explore::{Budget, Wait};
use stm_program::{Level, Program};
use stm_texts::Scenario;

/// What is printed of a search for the rule of a program.
fn search_alone<O: Audience>(
    alloc: Global,
    scenario: &Scenario,
    waits: &[Wait],
    keeps: Program,
    budget: &mut Budget<O>,
) -> Result<Printed, ExploreFault>
    requires stepless { HaveNoStep scenario.now.events }
    ensures printed { IfOk result (IsPrinted waits.now scenario.now (alone keeps ∷ [])) }
    ensures memory { IfErr result (λ fault. fault ≡ OutOfMemory) }
{
    let rule = alone(keeps);
    match search(alloc, scenario, waits, slice::from_ref(&rule), budget) {
        Ok(printed) => Ok(printed),
        Err(_) => Err(ExploreFault::OutOfMemory),
    }
}

/// Reads a scenario from its source to the end, then the program of a rule from its own, and looks after which schedules of the scenario the
/// rule is kept: the first by length, and then by the order of their moves, after which it is not, or that there is none.
///
/// Of the schedules those alone are looked at in which the runners wait for others, as `waits` says. The steps of the scenario are left out. Each
/// start is taken at the level that is named, where one is. At most as many moves are made as `budget` has left, and its observer is notified of
/// how far the search is. Neither source has failed before. It fails as `BadScenario` with the scenario's first fault, and then the program is not
/// read; as `BadProgram` with the program's first fault; as `BadWait` with the first wait for which the scenario does not have the runners; as
/// `OutOfMemory` where an allocation failed; and as `Device` exactly where a source has failed. At most 16777217 bytes of each are read, in at most
/// that many reads of each.
pub fn explore_sources<S: Source, R: Source, O: Audience>(
    alloc: Global,
    scenario: &mut S,
    keeps: &mut R,
    waits: &[Wait],
    level: Option<Level>,
    budget: &mut Budget<O>,
) -> Result<Printed, ExploreFault>
    requires scenario_works { S.failed scenario.old ≡ false }
    requires keeps_works { R.failed keeps.old ≡ false }
    ensures searched { Searches waits.now level (record {
      scenario = S.left scenario.old;
      keeps = R.left keeps.old;
      scenario_failed = S.failed scenario.new;
      keeps_failed = R.failed keeps.new;
    }) result }
    ensures scenario_bounded { S.reads scenario.new ≤ S.reads scenario.old + MOST_READ }
    ensures keeps_bounded { R.reads keeps.new ≤ R.reads keeps.old + MOST_READ }
{
    let scenario = scenario_of(alloc, scenario, level, &mut budget.observer)?;
    let keeps = program_of(alloc, keeps)?;
    check_waits(alloc, &scenario, waits, &mut budget.observer)?;
    search_alone(alloc, &scenario, waits, keeps, budget)
}

/// Reads a scenario from its source to the end, and looks for each rule after which schedules of it the rule is kept, as `explore_sources` does:
/// those that stand side by side and are asked at the same places in one walk, and for each at most as many moves are made as `budget` has left.
pub fn search_for<S: Source, O: Audience>(
    alloc: Global,
    scenario: &mut S,
    rules: &[Rule],
    waits: &[Wait],
    level: Option<Level>,
    budget: &mut Budget<O>,
) -> Result<Printed, ExploreFault>
    requires { S.failed scenario.old ≡ false }
    ensures searched { SearchesFor waits.now level rules.now (S.left scenario.old) (S.failed scenario.new) result }
    ensures bounded { S.reads scenario.new ≤ S.reads scenario.old + MOST_READ }
{
    let asked = scenario_of(alloc, scenario, level, &mut budget.observer)?;
    check_waits(alloc, &asked, waits, &mut budget.observer)?;
    match search(alloc, &asked, waits, rules, budget) {
        Ok(printed) => Ok(printed),
        Err(_) => Err(ExploreFault::OutOfMemory),
    }
}
