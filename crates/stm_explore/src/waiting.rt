//! The places of a scenario in which runners wait for others, and whether rules are kept there.
ghost use Rattle.std.specs.Prelude.{◌≡◌, ◌≤◌, ℕ, true, All, filter, length, Some, slice_get, IfOk};
ghost use Rattle.std.specs.List.{AllZip};
ghost use Rattle.stm_schedules.specs.Outcomes.{ends_after};
ghost use Rattle.stm_schedules.specs.Schedules.{place_after};
ghost use Rattle.stm_visited.specs.Answers.{EachIs, IsVisited, OpenIsSpent as VisitedIsSpent};
ghost use Rattle.stm_explore.specs.Explored.{OpenIsSpent};
ghost use Rattle.stm_explore.specs.Asked.{end_for};
ghost use Rattle.stm_explore.specs.Spots.{ShowTheSame};
ghost use Rattle.stm_explore.specs.Waiting.{is_allowed, asks_if_there, waiting_steps, waiting_rules_steps, waiting_respected, IsExploredPatiently};

use crate::asking::{When, asks, end_for};
use crate::exploring::{Explored, copy_of_moves};
use crate::gathering::Gathered;
use crate::judging::rule_at;
use crate::onlooking::{Onlooker, Watched};
use crate::places::{ReportedPlace, WorldPlace, shared_copy};
use crate::shared_ends::SharedEnds;
use crate::waits::{Wait, is_allowed};
use std::alloc::{AllocError, Global};
use stm_meaning::End;
use stm_program::Program;
use stm_retry::{SharedWorld, World};
use stm_schedules::{Move, Outcome, RunnerEnd};
use stm_visited::{Budget, Observer, System, Visited, find_first_bad};
use stm_world::WorldEvent;

/// What the others bring, the waits of runners, and rules.
#[derive(Drop)]
pub(crate) struct Waiting<'a> {
    pub(crate) gathered: Gathered<'a>,
    pub(crate) waits: &'a [Wait],
    pub(crate) when: When,
    pub(crate) rules: &'a [Program],
}

/// Those of these moves that are allowed.
fn only_allowed(moves: Vec<Move>, waits: &[Wait], ends: &[Option<RunnerEnd>]) -> Vec<Move>
    ensures { result.items ≡ filter (is_allowed waits.now ends.now) moves.items }
{
    let mut left = moves;
    left.retain(|chosen| is_allowed(waits, ends, *chosen));
    left
}

/// Whether the rule of a number among these is kept at a place, from where these moves can be made, if there is one.
fn asks_if_there(
    alloc: Global,
    when: When,
    rules: &[Program],
    rule: usize,
    moves: &[Move],
    place: &ReportedPlace,
) -> Result<bool, AllocError>
    ensures { IfOk result (λ kept. kept ≡ asks_if_there when (slice_get rules.now rule) moves.now place.now.at.world.standing.history place.now.ends) }
{
    let ends = place.ends.as_slice();
    match rule_at(rules, rule) {
        None => Ok(true),
        Some(rule) => asks(alloc, when, rule, moves, &place.at.world, ends),
    }
}

impl<'a> System for Waiting<'a> {
    type Place = ReportedPlace;

    type Move = Move;

    type Shown = Outcome;

    ghost steps = { λ s. waiting_rules_steps s.waits.now s.when s.rules.now s.gathered.others.now };

    ghost Alike = { λ s. ShowTheSame s.gathered.others.now };

    fn moves(&self, place: &ReportedPlace) -> Result<Vec<Move>, AllocError> {
        let moves = self.gathered.moves(place)?;
        Ok(only_allowed(moves, self.waits, place.ends.as_slice()))
    }

    fn moved(&self, place: &ReportedPlace, chosen: Move) -> Result<ReportedPlace, AllocError> {
        self.gathered.moved(place, chosen)
    }

    fn is_kept(&self, rule: usize, place: &ReportedPlace) -> Result<bool, AllocError> {
        let moves = self.moves(place)?;
        asks_if_there(
            self.gathered.alloc,
            self.when,
            self.rules,
            rule,
            moves.as_slice(),
            place,
        )
    }

    fn is_alike(&self, one: &ReportedPlace, other: &ReportedPlace) -> bool {
        self.gathered.is_alike(one, other)
    }

    fn hint(&self, place: &ReportedPlace) -> u64 {
        self.gathered.hint(place)
    }

    fn held_hint(&self, place: &ReportedPlace) -> u64 {
        self.gathered.held_hint(place)
    }

    fn sharing(
        &self,
        place: ReportedPlace,
        other: &ReportedPlace,
    ) -> Result<ReportedPlace, AllocError> {
        self.gathered.sharing(place, other)
    }

    ghost respects = { λ s. waiting_respected s.waits.now s.when s.rules.now s.gathered.others.now };
}

/// The end that the rule's program has after a schedule.
fn end_in(
    alloc: Global,
    waiting: &Waiting,
    rule: &Program,
    start: &SharedWorld,
    ends: &[Option<RunnerEnd>],
    moves: &[Move],
) -> Result<End, AllocError>
    ensures { IfOk result (λ end. end_for waiting.now.when rule.now
        (place_after moves.now (record { world = start.now; others = waiting.now.gathered.others.now })).world.standing.history
        (ends_after moves.now (record { world = start.now; others = waiting.now.gathered.others.now }) ends.now) ≡ Some end) }
{
    let mut place = start_of(alloc, start, ends)?;
    for chosen in moves {
        let next = waiting.moved(&place, *chosen)?;
        place = next;
    }
    let end = end_for(
        alloc,
        waiting.when,
        rule,
        &place.at.world,
        place.ends.as_slice(),
    )?;
    Ok(end)
}

/// What the search through places has found of a rule, with the end of its program where it is broken.
fn with_end(
    alloc: Global,
    waiting: &Waiting,
    rule: &Program,
    start: &SharedWorld,
    ends: &[Option<RunnerEnd>],
    visited: &Visited<Move>,
) -> Result<Explored, AllocError>
    requires { IsVisited (waiting_steps waiting.now.waits.now waiting.now.when rule.now waiting.now.gathered.others.now)
        (record { at = record { world = start.now; taken = 0 }; ends = ends.now }) visited.now }
    ensures explored { IfOk result (IsExploredPatiently waiting.now.waits.now waiting.now.when rule.now (record { world = start.now; others = waiting.now.gathered.others.now }) ends.now) }
    ensures same { IfOk result (λ explored. (left : ℕ) → VisitedIsSpent left visited.now → OpenIsSpent left explored) }
{
    match visited {
        Visited::Always { longest } => Ok(Explored::Always { longest: *longest }),
        Visited::Broken { moves } => {
            let end = end_in(alloc, waiting, rule, start, ends, moves.as_slice())?;
            let moves = copy_of_moves(alloc, moves)?;
            Ok(Explored::Broken { moves, end })
        }
        Visited::Open { kept } => Ok(Explored::Open { kept: *kept }),
    }
}

/// The same of each rule.
fn with_ends(
    alloc: Global,
    waiting: &Waiting,
    start: &SharedWorld,
    ends: &[Option<RunnerEnd>],
    answers: &[Visited<Move>],
) -> Result<Vec<Explored>, AllocError>
    requires each { length answers.now ≡ length waiting.now.rules.now }
    requires visited { EachIs (λ n. IsVisited (waiting_rules_steps waiting.now.waits.now waiting.now.when waiting.now.rules.now waiting.now.gathered.others.now n)
        (record { at = record { world = start.now; taken = 0 }; ends = ends.now })) answers.now }
    ensures explored { IfOk result (λ all. AllZip (λ rule. IsExploredPatiently waiting.now.waits.now waiting.now.when rule (record { world = start.now; others = waiting.now.gathered.others.now }) ends.now)
        waiting.now.rules.now all.items) }
    ensures same { IfOk result (λ all. (left : ℕ) → EachIs (λ n. VisitedIsSpent left) answers.now → All (OpenIsSpent left) all.items) }
{
    let rules = waiting.rules;
    let mut all = Vec::new(alloc);
    for index in 0..answers.len() {
        let visited = &answers[index];
        let explored = with_end(alloc, waiting, &rules[index], start, ends, visited)?;
        all.push(explored)?;
    }
    Ok(all)
}

/// The place where a search starts.
pub(crate) fn start_of(
    alloc: Global,
    world: &SharedWorld,
    ends: &[Option<RunnerEnd>],
) -> Result<ReportedPlace, AllocError>
    ensures { IfOk result (λ place. place ≡ record { at = record { world = world.now; taken = 0 }; ends = ends.now }) }
{
    let ends = SharedEnds::copy_of(alloc, ends)?;
    let world = world.share()?;
    Ok(ReportedPlace {
        at: WorldPlace { world, taken: 0 },
        ends,
    })
}

/// Whether each rule is kept after every schedule in which the runners wait.
fn explore_places<L: Onlooker, O: Observer>(
    alloc: Global,
    watched: &Watched<'_, L>,
    world: &World,
    ends: &[Option<RunnerEnd>],
    budget: &mut Budget<O>,
) -> Result<Vec<Explored>, AllocError>
    ensures explored { IfOk result (λ all. AllZip (λ rule. IsExploredPatiently watched.now.waiting.waits.now watched.now.waiting.when rule
        (record { world = world.now; others = watched.now.waiting.gathered.others.now }) ends.now) watched.now.waiting.rules.now all.items) }
    ensures left { budget.new.left ≤ budget.old.left }
    ensures spent { IfOk result (λ all. All (OpenIsSpent budget.new.left) all.items) }
{
    let waiting = &watched.waiting;
    let world = shared_copy(alloc, world)?;
    let start = start_of(alloc, &world, ends)?;
    let answers = find_first_bad(alloc, watched, waiting.rules.len(), start, budget)?;
    let all = with_ends(alloc, waiting, &world, ends, answers.as_slice())?;
    Ok(all)
}

/// Whether each of these rules is kept after every schedule in which runners wait for others: a runner makes no step before each runner that it waits
/// for has ended, and none at all unless that one has committed, where it is to. `when` says at which places the rules are asked. All are asked in one
/// walk through the places.
///
/// `ends` has what is known of the runners' ends before, by the runners' numbers, as `ends_reported` returns it. All else is as with `explore`,
/// in which no runner waits: the first schedule that does not keep a rule is the first of those in which the runners wait, and an answer is `Open` only
/// where nothing is left of `budget`. Each place where a rule is asked is shown to `onlooker`.
pub fn explore_waiting<L: Onlooker, O: Observer>(
    alloc: Global,
    world: &World,
    others: &[WorldEvent],
    ends: &[Option<RunnerEnd>],
    waits: &[Wait],
    when: When,
    rules: &[Program],
    onlooker: &L,
    budget: &mut Budget<O>,
) -> Result<Vec<Explored>, AllocError>
    ensures explored { IfOk result (λ all. AllZip (λ rule. IsExploredPatiently waits.now when rule (record { world = world.now; others = others.now }) ends.now) rules.now all.items) }
    ensures left { budget.new.left ≤ budget.old.left }
    ensures spent { IfOk result (λ all. All (OpenIsSpent budget.new.left) all.items) }
{
    let waiting = Waiting {
        gathered: Gathered { alloc, others },
        waits,
        when,
        rules,
    };
    let watched = Watched { waiting, onlooker };
    let explored = explore_places(alloc, &watched, world, ends, budget);
    budget.observer.ended();
    let explored = explored?;
    Ok(explored)
}
