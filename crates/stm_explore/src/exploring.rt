//! Whether rules are kept after every schedule.
ghost use Rattle.std.specs.Prelude.{◌≡◌, ◌≤◌, ℕ, length, All, Some, IfOk};
ghost use Rattle.std.specs.List.{AllZip};
ghost use Rattle.stm_schedules.specs.Keeping.{end_alone};
ghost use Rattle.stm_schedules.specs.Schedules.{place_after};
ghost use Rattle.stm_visited.specs.Answers.{EachIs, IsVisited, OpenIsSpent as VisitedIsSpent, OpenIsFar as VisitedIsFar};
ghost use Rattle.stm_explore.specs.Explored.{IsExplored, MergesAreKept, OpenIsSpent, OpenIsFar};
ghost use Rattle.stm_explore.specs.Spots.{rule_steps, rules_steps};

use crate::judging::Judged;
use crate::keeping::end_alone;
use crate::places::{WorldPlace, shared_copy};
use std::alloc::{AllocError, Global};
use stm_history::Sequence;
use stm_meaning::End;
use stm_program::Program;
use stm_retry::{SharedWorld, World};
use stm_schedules::Move;
use stm_visited::{Budget, Observer, System, Visited, find_first_bad};
use stm_world::WorldEvent;

/// Whether a rule is kept after every schedule.
#[derive(Debug, Drop)]
pub enum Explored {
    /// It is, whatever the length of the schedule.
    Always {
        /// The length of the longest schedule.
        longest: u64,
    },
    /// Not after this schedule. It is after each shorter one, and after each of the same length that stands before it.
    Broken {
        /// The schedule.
        moves: Sequence<Move>,
        /// The end that the rule's program has after it: an abort or a fault.
        end: End,
    },
    /// As many moves were made as may be, before that was decided.
    Open {
        /// It is kept after each schedule of up to this many moves, and there are longer ones.
        kept: u64,
    },
}

/// The end that a rule's program has after a schedule.
fn end_after(
    judged: &Judged,
    rule: &Program,
    start: &SharedWorld,
    moves: &[Move],
) -> Result<End, AllocError>
    ensures { IfOk result (λ end. end_alone rule.now (place_after moves.now (record { world = start.now; others = judged.now.others.now })).world ≡ Some end) }
{
    let mut place = WorldPlace {
        world: start.share()?,
        taken: 0,
    };
    for chosen in moves {
        let next = judged.moved(&place, *chosen)?;
        place = next;
    }
    let end = end_alone(rule, &place.world)?;
    Ok(end)
}

/// A copy of a schedule.
pub(crate) fn copy_of_moves(
    alloc: Global,
    moves: &Sequence<Move>,
) -> Result<Sequence<Move>, AllocError>
    ensures { IfOk result (λ copy. copy ≡ moves.now) }
{
    let copy = Vec::from_slice(alloc, moves.as_slice())?;
    Ok(Sequence::of(copy))
}

/// What the search through places has found of a rule, with the end of its program where it is broken.
fn with_end(
    alloc: Global,
    judged: &Judged,
    rule: &Program,
    start: &SharedWorld,
    visited: &Visited<Move>,
) -> Result<Explored, AllocError>
    requires { IsVisited (rule_steps rule.now judged.now.others.now) (record { world = start.now; taken = 0 }) visited.now }
    ensures explored { IfOk result (IsExplored rule.now (record { world = start.now; others = judged.now.others.now })) }
    ensures same { IfOk result (λ explored. (left : ℕ) → VisitedIsSpent left visited.now → OpenIsSpent left explored) }
    ensures far { IfOk result (λ explored. (made : ℕ) → VisitedIsFar (rule_steps rule.now judged.now.others.now) (record { world = start.now; taken = 0 }) made visited.now
        → OpenIsFar (record { world = start.now; others = judged.now.others.now }) made explored) }
{
    match visited {
        Visited::Always { longest } => Ok(Explored::Always { longest: *longest }),
        Visited::Broken { moves } => {
            let end = end_after(judged, rule, start, moves.as_slice())?;
            let moves = copy_of_moves(alloc, moves)?;
            Ok(Explored::Broken { moves, end })
        }
        Visited::Open { kept } => Ok(Explored::Open { kept: *kept }),
    }
}

/// The same of each rule.
fn with_ends(
    alloc: Global,
    judged: &Judged,
    start: &SharedWorld,
    answers: &[Visited<Move>],
) -> Result<Vec<Explored>, AllocError>
    requires each { length answers.now ≡ length judged.now.rules.now }
    requires visited { EachIs (λ n. IsVisited (rules_steps judged.now.rules.now judged.now.others.now n) (record { world = start.now; taken = 0 })) answers.now }
    ensures explored { IfOk result (λ all. AllZip (λ rule. IsExplored rule (record { world = start.now; others = judged.now.others.now })) judged.now.rules.now all.items) }
    ensures same { IfOk result (λ all. (left : ℕ) → EachIs (λ n. VisitedIsSpent left) answers.now → All (OpenIsSpent left) all.items) }
    ensures far { IfOk result (λ all. (made : ℕ) → EachIs (λ n. VisitedIsFar (rules_steps judged.now.rules.now judged.now.others.now n) (record { world = start.now; taken = 0 }) made) answers.now
        → All (OpenIsFar (record { world = start.now; others = judged.now.others.now }) made) all.items) }
{
    let rules = judged.rules;
    let mut all = Vec::new(alloc);
    for index in 0..answers.len() {
        let visited = &answers[index];
        let explored = with_end(alloc, judged, &rules[index], start, visited)?;
        all.push(explored)?;
    }
    Ok(all)
}

/// Whether each of these rules is kept after every schedule.
fn explore_schedules<O: Observer>(
    alloc: Global,
    rules: &[Program],
    world: &World,
    others: &[WorldEvent],
    budget: &mut Budget<O>,
) -> Result<Vec<Explored>, AllocError>
    ensures explored { IfOk result (λ all. AllZip (λ rule. IsExplored rule (record { world = world.now; others = others.now })) rules.now all.items) }
    ensures left { budget.new.left ≤ budget.old.left }
    ensures spent { IfOk result (λ all. All (OpenIsSpent budget.new.left) all.items) }
    ensures far { IfOk result (λ all. All (OpenIsFar (record { world = world.now; others = others.now }) budget.old.left) all.items) }
{
    let judged = Judged {
        alloc,
        others,
        rules,
    };
    let world = shared_copy(alloc, world)?;
    let start = WorldPlace {
        world: world.share()?,
        taken: 0,
    };
    let answers = find_first_bad(alloc, &judged, rules.len(), start, budget)?;
    let all = with_ends(alloc, &judged, &world, answers.as_slice())?;
    Ok(all)
}

/// Whether each of these rules is kept after every schedule: the moves of this world's runners, and of others that have these events yet to bring.
///
/// A rule is a program, which is run alone on the state after each schedule: the schedule keeps it where the run comes to its last
/// statement. Places are looked at by the number of moves to them, those of one number in the order of the schedules to them, and of places
/// from which the steps see the same the first one alone is gone on from. All rules are asked in one walk, and the answer about each is what it
/// would be without the others. At most as many moves are made as `budget` has left: it keeps
/// those that are not, and an answer is `Open` only where none is left, with a length such that the schedules of up to one move more are no
/// fewer than these moves. Its observer is notified of how far the search is. The answers hold also for steps of any runners, merged in any way
/// with a prefix of what the others bring.
///
/// It keeps a world for each place of two lengths. It fails only when out of memory. The world is left as it was.
pub fn explore<O: Observer>(
    alloc: Global,
    world: &World,
    others: &[WorldEvent],
    rules: &[Program],
    budget: &mut Budget<O>,
) -> Result<Vec<Explored>, AllocError>
    ensures explored { IfOk result (λ all. AllZip (λ rule. IsExplored rule (record { world = world.now; others = others.now })) rules.now all.items) }
    ensures merges { IfOk result (λ all. AllZip (λ rule. MergesAreKept rule (record { world = world.now; others = others.now })) rules.now all.items) }
    ensures left { budget.new.left ≤ budget.old.left }
    ensures spent { IfOk result (λ all. All (OpenIsSpent budget.new.left) all.items) }
    ensures far { IfOk result (λ all. All (OpenIsFar (record { world = world.now; others = others.now }) budget.old.left) all.items) }
{
    let all = explore_schedules(alloc, rules, world, others, budget);
    budget.observer.ended();
    let all = all?;
    Ok(all)
}
