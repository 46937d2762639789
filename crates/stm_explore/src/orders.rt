//! Whether whole schedules come to what serial orders come to.
ghost use Rattle.std.specs.Prelude.{◌≡◌, ◌<◌, ◌≤◌, ℕ, None, filter, length, slice_index_or, IfOk};
ghost use Rattle.stm_schedules.specs.Places.{Place};
ghost use Rattle.stm_visited.specs.Answers.{IsVisited, OpenIsSpent};
ghost use Rattle.stm_explore.specs.Explored.{AreAllOutcomes, AreOutcomes, OutcomesAreWitnessed, OpenOutcomesAreSpent, OpenOutcomesAreFar};
ghost use Rattle.stm_explore.specs.Orders.{Answers, AreCompared, IsExplained, IsSerialAnswer, IsSought, IsWithin, explained_by};
ghost use Rattle.stm_explore.specs.Orders.{OpenAnswerIsSpent, OpenAnswerIsFar, UnknownIsSpent, NotKnownIsSpent};
ghost use Rattle.stm_explore.specs.Turns.{counted, counts, turn_steps};
ghost use Rattle.stm_explore.specs.Witnesses.{AreOrdered, AreWitnesses};

use crate::ends::copy_of;
use crate::finding::{Outcomes, gather_outcomes};
use crate::gathering::Gathered;
use crate::places::shared_copy;
use crate::turns::{TurnPlace, Turns, counts};
use crate::waiting::start_of;
use std::alloc::{AllocError, Global};
use stm_history::Sequence;
use stm_retry::{SharedWorld, World};
use stm_schedules::{KeyValue, Move, Outcome, RunnerEnd};
use stm_visited::{Budget, Nobody, Observer, Visited, find_first_bad};
use stm_world::WorldEvent;

/// Whether whole schedules come to what serial orders come to.
///
/// In a serial order one runner after another makes all its steps, and the others bring their events between two runners. A run that gave up, or that the
/// store ended, has changed nothing, and counts as one that never began.
#[derive(Debug, Drop)]
pub enum SerialAnswer {
    /// They do: some serial order comes to each outcome.
    Serial {
        /// How many outcomes there are.
        outcomes: u64,
    },
    /// No serial order comes to this outcome.
    Anomaly {
        /// The outcome.
        outcome: Outcome,
        /// A schedule that comes to it: none that comes to such an outcome is shorter.
        moves: Sequence<Move>,
    },
    /// As many moves were made as may be, before all outcomes were found.
    Open {
        /// Every schedule of up to this many moves was gone through, and there are longer ones.
        gone_through: u64,
    },
    /// As many moves were made as may be, before it was known whether a serial order comes to this outcome.
    Undecided {
        /// The outcome.
        outcome: Outcome,
        /// A schedule that comes to it: none that does is shorter, nor is one that comes to an outcome to which no serial order does.
        moves: Sequence<Move>,
    },
}

/// A copy of a key with its value.
fn copy_of_key(kv: &KeyValue) -> Result<KeyValue, AllocError>
    ensures { IfOk result (λ copy. copy ≡ kv.now) }
{
    let key = kv.key.clone()?;
    let value = kv.value.clone()?;
    Ok(KeyValue { key, value })
}

/// A copy of a state.
fn copy_of_state(alloc: Global, state: &[KeyValue]) -> Result<Vec<KeyValue>, AllocError>
    ensures { IfOk result (λ copy. copy.items ≡ state.now) }
{
    let mut copy = Vec::with_capacity(alloc, state.len())?;
    for kv in state {
        copy.push(copy_of_key(kv)?)?;
    }
    Ok(copy)
}

/// The ends that count.
fn counted_ends(alloc: Global, ends: &[RunnerEnd]) -> Result<Vec<RunnerEnd>, AllocError>
    ensures { IfOk result (λ list. list.items ≡ filter counts ends.now) }
{
    let mut list = Vec::new(alloc);
    for end in ends {
        if counts(end) {
            list.push(copy_of(end)?)?;
        }
    }
    Ok(list)
}

/// An outcome without the ends that do not count.
fn counted(alloc: Global, it: &Outcome) -> Result<Outcome, AllocError>
    ensures { IfOk result (λ goal. goal ≡ counted it.now) }
{
    let state = copy_of_state(alloc, it.state.as_slice())?;
    let ends = counted_ends(alloc, it.ends.as_slice())?;
    Ok(Outcome {
        state: Sequence::of(state),
        ends: Sequence::of(ends),
    })
}

/// Where serial orders start.
fn start_in_turn(
    alloc: Global,
    world: &SharedWorld,
    ends: &[Option<RunnerEnd>],
) -> Result<TurnPlace, AllocError>
    ensures { IfOk result (λ place. place ≡ record { reported = record { at = record { world = world.now; taken = 0 }; ends = ends.now }; last = None }) }
{
    let reported = start_of(alloc, world, ends)?;
    Ok(TurnPlace {
        reported,
        last: None,
    })
}

/// Looks for a place at which no move is left and that shows what is wanted.
fn seek<O: Observer>(
    alloc: Global,
    turns: &Turns,
    start: TurnPlace,
    budget: &mut Budget<O>,
) -> Result<Visited<Move>, AllocError>
    ensures visited { IfOk result (IsVisited (turn_steps turns.now.wanted.now turns.now.goal.now turns.now.gathered.others.now) start) }
    ensures left { budget.new.left ≤ budget.old.left }
    ensures spent { IfOk result (OpenIsSpent budget.new.left) }
{
    let mut quiet = Budget {
        left: budget.left,
        observer: Nobody,
    };
    let answers = find_first_bad(alloc, turns, 1, start, &mut quiet)?;
    budget.left = quiet.left;
    Ok(taken(Sequence::of(answers), 0))
}

/// Looks for a serial order that comes to an outcome.
fn find_order<O: Observer>(
    alloc: Global,
    others: &[WorldEvent],
    world: &SharedWorld,
    ends: &[Option<RunnerEnd>],
    outcome: &Outcome,
    budget: &mut Budget<O>,
) -> Result<Visited<Move>, AllocError>
    ensures sought { IfOk result (IsSought outcome.now (record { world = world.now; others = others.now }) ends.now) }
    ensures left { budget.new.left ≤ budget.old.left }
    ensures spent { IfOk result (OpenIsSpent budget.new.left) }
{
    let goal = counted(alloc, outcome)?;
    let start = start_in_turn(alloc, world, ends)?;
    let turns = Turns {
        gathered: Gathered { alloc, others },
        wanted: outcome.ends.as_slice(),
        goal: &goal,
    };
    let visited = seek(alloc, &turns, start, budget)?;
    Ok(visited)
}

/// Whether a serial order comes to an outcome.
#[derive(Clone, Copy)]
pub(crate) enum Explained {
    Yes,
    No,
    Unknown,
}

/// Whether a serial order comes to an outcome, by what was found.
fn explained_by(visited: &Visited<Move>) -> Explained
    ensures explained { result ≡ explained_by visited.now }
    ensures spent { (left : ℕ) → OpenIsSpent left visited.now → UnknownIsSpent left result }
{
    match visited {
        Visited::Broken { .. } => Explained::Yes,
        Visited::Always { .. } => Explained::No,
        Visited::Open { .. } => Explained::Unknown,
    }
}

/// Whether a serial order comes to an outcome.
fn explain<O: Observer>(
    alloc: Global,
    others: &[WorldEvent],
    world: &SharedWorld,
    ends: &[Option<RunnerEnd>],
    outcome: &Outcome,
    budget: &mut Budget<O>,
) -> Result<Explained, AllocError>
    ensures explained { IfOk result (IsExplained outcome.now (record { world = world.now; others = others.now }) ends.now) }
    ensures left { budget.new.left ≤ budget.old.left }
    ensures spent { IfOk result (UnknownIsSpent budget.new.left) }
{
    let visited = find_order(alloc, others, world, ends, outcome, budget)?;
    Ok(explained_by(&visited))
}

/// What is known of outcomes, in their order.
#[derive(Clone, Copy)]
pub(crate) enum Compared {
    /// A serial order comes to each.
    Serial,
    /// No serial order comes to the one at this index.
    Odd(usize),
    /// Whether one comes to that at this index is not known.
    Undecided(usize),
}

/// Whether serial orders come to these outcomes.
fn compare<O: Observer>(
    alloc: Global,
    others: &[WorldEvent],
    world: &SharedWorld,
    ends: &[Option<RunnerEnd>],
    outcomes: &[Outcome],
    budget: &mut Budget<O>,
) -> Result<Compared, AllocError>
    ensures compared { IfOk result (AreCompared (record { world = world.now; others = others.now }) ends.now outcomes.now) }
    ensures left { budget.new.left ≤ budget.old.left }
    ensures spent { IfOk result (NotKnownIsSpent budget.new.left) }
{
    for i in 0..outcomes.len() {
        let explained = explain(alloc, others, world, ends, &outcomes[i], budget)?;
        match explained {
            Explained::Yes => {}
            Explained::No => return Ok(Compared::Odd(i)),
            Explained::Unknown => return Ok(Compared::Undecided(i)),
        }
    }
    Ok(Compared::Serial)
}

/// What stands at an index.
fn taken<T: Drop>(items: Sequence<T>, index: usize) -> T
    requires { index < length items }
    ensures { result ≡ slice_index_or items index result }
{
    let mut items = items.into_vec();
    items.swap_remove(index)
}

/// The answer by what is known of outcomes, of which these are witnesses.
fn answer_of(
    outcomes: Sequence<Outcome>,
    schedules: Sequence<Sequence<Move>>,
    compared: Compared,
) -> SerialAnswer
    requires { IsWithin outcomes schedules compared }
    ensures answers { Answers outcomes schedules compared result }
    ensures spent { (left : ℕ) → NotKnownIsSpent left compared → OpenAnswerIsSpent left result }
    ensures far { (p : Place) (made : ℕ) → OpenAnswerIsFar p made result }
{
    match compared {
        Compared::Serial => SerialAnswer::Serial {
            outcomes: outcomes.len() as u64,
        },
        Compared::Odd(i) => SerialAnswer::Anomaly {
            outcome: taken(outcomes, i),
            moves: taken(schedules, i),
        },
        Compared::Undecided(i) => SerialAnswer::Undecided {
            outcome: taken(outcomes, i),
            moves: taken(schedules, i),
        },
    }
}

/// The answer about outcomes, of which these are witnesses.
fn answer_about<O: Observer>(
    alloc: Global,
    world: &World,
    others: &[WorldEvent],
    ends: &[Option<RunnerEnd>],
    outcomes: Sequence<Outcome>,
    schedules: Sequence<Sequence<Move>>,
    budget: &mut Budget<O>,
) -> Result<SerialAnswer, AllocError>
    requires all { AreAllOutcomes (record { world = world.now; others = others.now }) ends.now outcomes }
    requires witnessed { AreWitnesses (record { world = world.now; others = others.now }) ends.now outcomes schedules × AreOrdered schedules }
    ensures answer { IfOk result (IsSerialAnswer (record { world = world.now; others = others.now }) ends.now) }
    ensures left { budget.new.left ≤ budget.old.left }
    ensures spent { IfOk result (OpenAnswerIsSpent budget.new.left) }
    ensures far { (p : Place) (made : ℕ) → IfOk result (OpenAnswerIsFar p made) }
{
    let world = shared_copy(alloc, world)?;
    let compared = compare(alloc, others, &world, ends, outcomes.as_slice(), budget)?;
    Ok(answer_of(outcomes, schedules, compared))
}

/// The answer about what whole schedules come to.
fn answer_by<O: Observer>(
    alloc: Global,
    world: &World,
    others: &[WorldEvent],
    ends: &[Option<RunnerEnd>],
    found: Outcomes,
    budget: &mut Budget<O>,
) -> Result<SerialAnswer, AllocError>
    requires all { AreOutcomes (record { world = world.now; others = others.now }) ends.now found }
    requires witnessed { OutcomesAreWitnessed (record { world = world.now; others = others.now }) ends.now found }
    requires spent { OpenOutcomesAreSpent budget.old.left found }
    ensures answer { IfOk result (IsSerialAnswer (record { world = world.now; others = others.now }) ends.now) }
    ensures left { budget.new.left ≤ budget.old.left }
    ensures spent { IfOk result (OpenAnswerIsSpent budget.new.left) }
    ensures far { (p : Place) (made : ℕ) → OpenOutcomesAreFar p made found → IfOk result (OpenAnswerIsFar p made) }
{
    match found {
        Outcomes::Found {
            outcomes,
            schedules,
        } => answer_about(alloc, world, others, ends, outcomes, schedules, budget),
        Outcomes::Open { gone_through, .. } => Ok(SerialAnswer::Open { gone_through }),
    }
}

/// Goes through whole schedules, and then through serial orders.
fn look<O: Observer>(
    alloc: Global,
    world: &World,
    others: &[WorldEvent],
    ends: &[Option<RunnerEnd>],
    budget: &mut Budget<O>,
) -> Result<SerialAnswer, AllocError>
    ensures answer { IfOk result (IsSerialAnswer (record { world = world.now; others = others.now }) ends.now) }
    ensures left { budget.new.left ≤ budget.old.left }
    ensures spent { IfOk result (OpenAnswerIsSpent budget.new.left) }
    ensures far { IfOk result (OpenAnswerIsFar (record { world = world.now; others = others.now }) budget.old.left) }
{
    let found = gather_outcomes(alloc, world, others, ends, budget)?;
    answer_by(alloc, world, others, ends, found, budget)
}

/// Whether whole schedules come to what serial orders come to: those of the moves of this world's runners, and of others that have these events yet to
/// bring.
///
/// First all outcomes are found, as by `find_outcomes`, and then for each in turn a serial order that comes to it. At most as many moves are made in all as
/// `budget` has left: it keeps those that are not, and the answer is `Open` or `Undecided` only where none is left, `Open` as far as that of `find_outcomes`.
/// Its observer is notified of how far the first search is. `ends` has what is known of the runners' ends before, by the runners' numbers, as `ends_reported`
/// returns it.
///
/// It fails only when out of memory. The world is left as it was.
pub fn find_anomaly<O: Observer>(
    alloc: Global,
    world: &World,
    others: &[WorldEvent],
    ends: &[Option<RunnerEnd>],
    budget: &mut Budget<O>,
) -> Result<SerialAnswer, AllocError>
    ensures answer { IfOk result (IsSerialAnswer (record { world = world.now; others = others.now }) ends.now) }
    ensures left { budget.new.left ≤ budget.old.left }
    ensures spent { IfOk result (OpenAnswerIsSpent budget.new.left) }
    ensures far { IfOk result (OpenAnswerIsFar (record { world = world.now; others = others.now }) budget.old.left) }
{
    let answer = look(alloc, world, others, ends, budget);
    budget.observer.ended();
    let answer = answer?;
    Ok(answer)
}
