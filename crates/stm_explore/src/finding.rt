//! What whole schedules come to.
ghost use Rattle.std.specs.Prelude.{◌≡◌, ◌≤◌, suc, [], IfOk, IfSome, OnOk, OnSome};
ghost use Rattle.stm_explore.specs.Explored.{IsCollected, AreOutcomes, OutcomesAreWitnessed, OpenOutcomesAreSpent, OpenOutcomesAreFar, count_up_to};
ghost use Rattle.stm_explore.specs.Witnesses.{AreOrdered, AreWitnesses};
ghost use Rattle.stm_explore.specs.Spots.{place_of};

use crate::collecting::collect_whole;
use crate::gathering::Gathered;
use crate::places::{ReportedPlace, WorldPlace, shared_copy};
use crate::shared_ends::SharedEnds;
use std::alloc::{AllocError, Global};
use stm_history::Sequence;
use stm_retry::World;
use stm_schedules::{Move, Outcome, RunnerEnd};
use stm_visited::{Budget, Halt, Observer, can_go_on, next_layer, opening_layer};
use stm_world::WorldEvent;

/// What whole schedules come to.
#[derive(Debug, Drop)]
pub enum Outcomes {
    /// Each outcome of a whole schedule, once.
    Found {
        /// The outcomes.
        outcomes: Sequence<Outcome>,
        /// Of each outcome, in their order, a schedule that comes to it: none that does is shorter. None of these is longer than one behind it.
        schedules: Sequence<Sequence<Move>>,
    },
    /// As many moves were made as may be, before all of them were found.
    Open {
        /// Every schedule of up to this many moves was gone through, and there are longer ones.
        gone_through: u64,
        /// Each outcome of a whole schedule of up to this many moves, once.
        outcomes: Sequence<Outcome>,
        /// Of each such outcome, in their order, a schedule that comes to it, as of all.
        schedules: Sequence<Sequence<Move>>,
    },
}

/// Adds the outcomes of all whole schedules, those of each length after those of shorter ones. No schedule is looked at that has more moves than
/// may be made.
///
/// The answer is None once all are found, and else up to which length every schedule was gone through.
fn collect_layers<O: Observer>(
    alloc: Global,
    gathered: &Gathered,
    start: ReportedPlace,
    budget: &mut Budget<O>,
    found: &mut Vec<Outcome>,
    schedules: &mut Vec<Sequence<Move>>,
) -> Result<Option<u64>, AllocError>
    requires none_found { found.old.items ≡ [] }
    requires no_schedules { schedules.old.items ≡ [] }
    ensures collected { IfOk result (IsCollected (place_of gathered.now.others.now start.at) start.ends found.new.items) }
    ensures witnessed { OnOk result (AreWitnesses (place_of gathered.now.others.now start.at) start.ends found.new.items schedules.new.items) }
    ensures ordered { OnOk result (AreOrdered schedules.new.items) }
    ensures left { budget.new.left ≤ budget.old.left }
    ensures spent { IfOk result (λ stopped. OnSome stopped (budget.new.left ≡ 0)) }
    ensures far { IfOk result (λ stopped. IfSome stopped (λ n. budget.old.left ≤ count_up_to (suc n) (place_of gathered.now.others.now start.at))) }
{
    let others = gathered.others;
    let mut layer = opening_layer(alloc, start)?;
    collect_whole(alloc, others, layer.as_slice(), found, schedules)?;
    if !can_go_on(gathered, layer.as_slice())? {
        return Ok(None);
    }
    let most = budget.left;
    for gone_through in 0..most {
        budget.observer.passed(gone_through, budget.left);
        match next_layer(alloc, gathered, layer, budget) {
            Ok(next) => {
                collect_whole(alloc, others, next.as_slice(), found, schedules)?;
                if !can_go_on(gathered, next.as_slice())? {
                    return Ok(None);
                }
                layer = next;
            }
            Err(Halt::Spent) => return Ok(Some(gone_through)),
            Err(Halt::OutOfMemory) => return Err(AllocError),
        }
    }
    Ok(Some(most))
}

/// Adds the outcomes of all whole schedules. The answer is as for those of layers.
fn collect_all<O: Observer>(
    alloc: Global,
    world: &World,
    others: &[WorldEvent],
    ends: &[Option<RunnerEnd>],
    budget: &mut Budget<O>,
    found: &mut Vec<Outcome>,
    schedules: &mut Vec<Sequence<Move>>,
) -> Result<Option<u64>, AllocError>
    requires none_found { found.old.items ≡ [] }
    requires no_schedules { schedules.old.items ≡ [] }
    ensures collected { IfOk result (IsCollected (record { world = world.now; others = others.now }) ends.now found.new.items) }
    ensures witnessed { OnOk result (AreWitnesses (record { world = world.now; others = others.now }) ends.now found.new.items schedules.new.items) }
    ensures ordered { OnOk result (AreOrdered schedules.new.items) }
    ensures left { budget.new.left ≤ budget.old.left }
    ensures spent { IfOk result (λ stopped. OnSome stopped (budget.new.left ≡ 0)) }
    ensures far { IfOk result (λ stopped. IfSome stopped (λ n. budget.old.left ≤ count_up_to (suc n) (record { world = world.now; others = others.now }))) }
{
    let ends = SharedEnds::copy_of(alloc, ends)?;
    let world = shared_copy(alloc, world)?;
    let start = ReportedPlace {
        at: WorldPlace { world, taken: 0 },
        ends,
    };
    let gathered = Gathered { alloc, others };
    let stopped = collect_layers(alloc, &gathered, start, budget, found, schedules)?;
    Ok(stopped)
}

/// What whole schedules come to. The observer is not notified of the end.
pub(crate) fn gather_outcomes<O: Observer>(
    alloc: Global,
    world: &World,
    others: &[WorldEvent],
    ends: &[Option<RunnerEnd>],
    budget: &mut Budget<O>,
) -> Result<Outcomes, AllocError>
    ensures outcomes { IfOk result (AreOutcomes (record { world = world.now; others = others.now }) ends.now) }
    ensures witnessed { IfOk result (OutcomesAreWitnessed (record { world = world.now; others = others.now }) ends.now) }
    ensures left { budget.new.left ≤ budget.old.left }
    ensures spent { IfOk result (OpenOutcomesAreSpent budget.new.left) }
    ensures far { IfOk result (OpenOutcomesAreFar (record { world = world.now; others = others.now }) budget.old.left) }
{
    let mut found = Vec::new(alloc);
    let mut schedules = Vec::new(alloc);
    let stopped = collect_all(
        alloc,
        world,
        others,
        ends,
        budget,
        &mut found,
        &mut schedules,
    )?;
    match stopped {
        None => Ok(Outcomes::Found {
            outcomes: Sequence::of(found),
            schedules: Sequence::of(schedules),
        }),
        Some(gone_through) => Ok(Outcomes::Open {
            gone_through,
            outcomes: Sequence::of(found),
            schedules: Sequence::of(schedules),
        }),
    }
}

/// What whole schedules come to, each outcome with a schedule that comes to it, in the order of their lengths: those of the moves of this world's runners, and of others that have
/// these events yet to bring.
///
/// `ends` has what is known of the runners' ends before, by the runners' numbers, as `ends_reported` returns it. Places are gone through by the
/// number of moves to them; of those from which the steps see the same, and where the same is known of the ends, the first one alone is
/// gone on from. At most as many moves are made as `budget` has left: it keeps those that are not, and the answer is `Open` only where none
/// is left, with a length such that the schedules of up to one move more are no fewer than these moves. Its observer is notified of how far the
/// search is.
///
/// It fails only when out of memory. The world is left as it was.
pub fn find_outcomes<O: Observer>(
    alloc: Global,
    world: &World,
    others: &[WorldEvent],
    ends: &[Option<RunnerEnd>],
    budget: &mut Budget<O>,
) -> Result<Outcomes, AllocError>
    ensures outcomes { IfOk result (AreOutcomes (record { world = world.now; others = others.now }) ends.now) }
    ensures witnessed { IfOk result (OutcomesAreWitnessed (record { world = world.now; others = others.now }) ends.now) }
    ensures left { budget.new.left ≤ budget.old.left }
    ensures spent { IfOk result (OpenOutcomesAreSpent budget.new.left) }
    ensures far { IfOk result (OpenOutcomesAreFar (record { world = world.now; others = others.now }) budget.old.left) }
{
    let found = gather_outcomes(alloc, world, others, ends, budget);
    budget.observer.ended();
    let found = found?;
    Ok(found)
}
