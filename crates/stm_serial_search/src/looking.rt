//! A look at all serial runs.
//!
//! Each is looked at before those that it begins. A runner's whole run is one move, which is made on a copy of the world.
ghost use Rattle.std.specs.Prelude.{◌≡◌, ◌∷◌, ◌-◌, ◌<◌, ◌≤◌, Some, length, slice_get, drop, IfOk, OnOk, Contains};
ghost use Rattle.stm_schedules.specs.declared.moves.Move.TheVariants.{Step as StepOf, Other};
ghost use Rattle.stm_serial.specs.Serial.{AreForeign, choices, first_bad_serial, serial_moved};
ghost use Rattle.stm_serial_search.specs.Search.{keeps_all, point, found_after, in_front, AreProgramsOf, LeavesFirst};

use crate::choices::{choices_at, with_taken};
use crate::following::{Follower, Halt, ask};
use crate::whole::{are_kept, run_whole, take_foreign};
use std::alloc::{AllocError, Global};
use stm_history::Sequence;
use stm_program::Program;
use stm_retry::World;
use stm_schedules::Move;
use stm_world::WorldEvent;

/// The moves with one more in front.
fn with_first(first: Move, moves: Sequence<Move>) -> Result<Sequence<Move>, AllocError>
    ensures { IfOk result (λ all. all ≡ first ∷ moves) }
{
    let mut all = moves.into_vec();
    all.insert(0, first)?;
    Ok(Sequence::of(all))
}

/// What was found after a move, as it is found before it.
fn in_front(
    first: Move,
    found: Option<Sequence<Move>>,
) -> Result<Option<Sequence<Move>>, AllocError>
    ensures { IfOk result (λ all. all ≡ in_front first found) }
{
    match found {
        None => Ok(None),
        Some(moves) => {
            let all = with_first(first, moves)?;
            Ok(Some(all))
        }
    }
}

/// The program of a runner.
fn program_of(programs: &[Program], runner: u64) -> &Program
    requires some { 0 < runner }
    requires there { runner ≤ length programs.now }
    ensures { slice_get programs.now (runner - 1) ≡ Some result.now }
{
    let index = (runner - 1) as usize;
    &programs[index]
}

/// Takes the others' next event.
fn take_first(world: &mut World, others: &[WorldEvent]) -> Result<(), AllocError>
    requires there { 0 < length others.now }
    requires foreign { AreForeign others.now }
    ensures store { OnOk result (LeavesFirst others.now world.old.standing world.new.standing) }
    ensures runners { OnOk result (world.new.runners ≡ world.old.runners) }
{
    take_foreign(world, &others[0])?;
    Ok(())
}

/// The events of the others after the next one.
pub(crate) fn rest_of(others: &[WorldEvent]) -> &[WorldEvent]
    requires { 0 < length others.now }
    ensures { result.now ≡ drop 1 others.now }
{
    &others[1..]
}

/// The first serial run of up to `depth` moves that does not keep all of these rules. The world's own runners have made no step; `taken` says by number which of
/// them were run, and these are their programs.
#[cycle(look)]
pub(crate) fn look<F: Follower>(
    alloc: Global,
    rules: &[Program],
    programs: &[Program],
    world: &World,
    taken: &[bool],
    others: &[WorldEvent],
    depth: u64,
    follower: &mut F,
) -> Result<Option<Sequence<Move>>, Halt>
    requires sized { length taken.now ≡ length world.now.runners }
    requires programs { AreProgramsOf programs.now world.now.runners }
    requires foreign { AreForeign others.now }
    ensures { IfOk result (λ found. found ≡ first_bad_serial (keeps_all rules.now) depth (point world.now taken.now others.now)) }
{
    follower.came(world);
    let kept = are_kept(rules, world)?;
    if !kept {
        return Ok(Some(Sequence::new(alloc)));
    }
    if depth == 0 {
        return Ok(None);
    }
    let all = choices_at(alloc, world, taken, others)?;
    let choices = all.as_slice();
    for chosen in choices {
        match look_after(
            alloc,
            rules,
            programs,
            world,
            taken,
            others,
            *chosen,
            depth - 1,
            follower,
        )? {
            None => {}
            Some(moves) => return Ok(Some(moves)),
        }
    }
    Ok(None)
}

/// The first one after a move, which is made on a copy of the world.
#[cycle(look)]
fn look_after<F: Follower>(
    alloc: Global,
    rules: &[Program],
    programs: &[Program],
    world: &World,
    taken: &[bool],
    others: &[WorldEvent],
    chosen: Move,
    depth: u64,
    follower: &mut F,
) -> Result<Option<Sequence<Move>>, Halt>
    requires sized { length taken.now ≡ length world.now.runners }
    requires programs { AreProgramsOf programs.now world.now.runners }
    requires foreign { AreForeign others.now }
    requires can { Contains (choices (point world.now taken.now others.now)) chosen }
    ensures { IfOk result (λ found. found ≡ found_after (keeps_all rules.now) depth (point world.now taken.now others.now) chosen) }
{
    ask(follower)?;
    let mut next = world.copy()?;
    let found = look_moved(
        alloc, rules, programs, &mut next, taken, others, chosen, depth, follower,
    );
    drop(next);
    let found = found?;
    let all = in_front(chosen, found)?;
    Ok(all)
}

/// Makes a move, and looks from there.
#[cycle(look)]
fn look_moved<F: Follower>(
    alloc: Global,
    rules: &[Program],
    programs: &[Program],
    world: &mut World,
    taken: &[bool],
    others: &[WorldEvent],
    chosen: Move,
    depth: u64,
    follower: &mut F,
) -> Result<Option<Sequence<Move>>, Halt>
    requires sized { length taken.now ≡ length world.old.runners }
    requires programs { AreProgramsOf programs.now world.old.runners }
    requires foreign { AreForeign others.now }
    requires can { Contains (choices (point world.old taken.now others.now)) chosen }
    ensures { IfOk result (λ found. found ≡ first_bad_serial (keeps_all rules.now) depth (serial_moved chosen (point world.old taken.now others.now))) }
{
    match chosen {
        Move::Step { runner } => {
            look_step(
                alloc, rules, programs, world, taken, others, runner, depth, follower,
            )
        }
        Move::Other => look_other(
            alloc, rules, programs, world, taken, others, depth, follower,
        ),
    }
}

/// Runs a runner's program alone, and looks from there.
#[cycle(look)]
fn look_step<F: Follower>(
    alloc: Global,
    rules: &[Program],
    programs: &[Program],
    world: &mut World,
    taken: &[bool],
    others: &[WorldEvent],
    runner: u64,
    depth: u64,
    follower: &mut F,
) -> Result<Option<Sequence<Move>>, Halt>
    requires sized { length taken.now ≡ length world.old.runners }
    requires programs { AreProgramsOf programs.now world.old.runners }
    requires foreign { AreForeign others.now }
    requires can { Contains (choices (point world.old taken.now others.now)) (StepOf runner) }
    ensures { IfOk result (λ found. found ≡ first_bad_serial (keeps_all rules.now) depth (serial_moved (StepOf runner) (point world.old taken.now others.now))) }
{
    let program = program_of(programs, runner);
    run_whole(alloc, runner, program, world, follower)?;
    let more = with_taken(alloc, taken, runner)?;
    let found = look(
        alloc,
        rules,
        programs,
        world,
        more.as_slice(),
        others,
        depth,
        follower,
    );
    drop(more);
    found
}

/// Has the others bring their next event, and looks from there.
#[cycle(look)]
fn look_other<F: Follower>(
    alloc: Global,
    rules: &[Program],
    programs: &[Program],
    world: &mut World,
    taken: &[bool],
    others: &[WorldEvent],
    depth: u64,
    follower: &mut F,
) -> Result<Option<Sequence<Move>>, Halt>
    requires sized { length taken.now ≡ length world.old.runners }
    requires programs { AreProgramsOf programs.now world.old.runners }
    requires foreign { AreForeign others.now }
    requires can { Contains (choices (point world.old taken.now others.now)) Other }
    ensures { IfOk result (λ found. found ≡ first_bad_serial (keeps_all rules.now) depth (serial_moved Other (point world.old taken.now others.now))) }
{
    take_first(world, others)?;
    let left = rest_of(others);
    let found = look(alloc, rules, programs, world, taken, left, depth, follower)?;
    Ok(found)
}
