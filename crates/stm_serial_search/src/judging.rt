//! Whether rules are kept after every schedule, by serial orders.
ghost use Rattle.std.specs.Prelude.{◌≡◌, ◌++◌, length, map, IfOk, OnOk};
ghost use Rattle.stm_serial.specs.Serial.{IsComparing};
ghost use Rattle.stm_program.specs.Syntax.{ProgramTree};
ghost use Rattle.stm_schedules.specs.Places.{Place};
ghost use Rattle.stm_serial_search.specs.Replaying.{AreJudged, IsJudged, if_undecided, or_always, undecided};
ghost use Rattle.stm_serial_search.specs.Search.{AreProgramsOf};

use crate::comparing::are_foreign;
use crate::finding::find_bad_order;
use crate::following::{Follower, Halt};
use crate::replaying::{Break, replay};
use std::alloc::{AllocError, Global};
use stm_program::Program;
use stm_retry::World;
use stm_schedules::Move;
use stm_world::WorldEvent;

/// What serial orders say of a rule.
#[derive(Debug, Drop)]
pub enum Judged {
    /// It is kept after every schedule, whatever its length.
    Always,
    /// It is not kept after this schedule, which was made and judged. It need not be the first one, nor among the shortest.
    Broken(Break),
    /// Nothing: no further move may be made, or an order that breaks the rule does not break it step by step.
    Undecided,
    /// It was not asked.
    NotAsked,
}

/// What is known of a rule before any order is made.
fn before_orders(is_asked: bool) -> Judged
    ensures { (rule : ProgramTree) (p : Place) → IsJudged rule p result }
{
    if is_asked {
        Judged::Undecided
    } else {
        Judged::NotAsked
    }
}

/// The same of each of these rules.
fn none_decided(alloc: Global, rules: &[Program], asked: &[bool]) -> Result<Vec<Judged>, AllocError>
    requires { length asked.now ≡ length rules.now }
    ensures { IfOk result (λ judged. (p : Place) → AreJudged rules.now p judged.items) }
{
    let mut judged = Vec::with_capacity(alloc, rules.len())?;
    for index in 0..rules.len() {
        judged.push(before_orders(asked[index]))?;
    }
    Ok(judged)
}

/// Adds a rule, if it is not decided.
fn push_undecided(
    left: &mut Vec<Program>,
    rule: &Program,
    judged: &Judged,
) -> Result<(), AllocError>
    ensures { OnOk result (left.new.items ≡ left.old.items ++ if_undecided rule.now judged.now) }
{
    match judged {
        Judged::Undecided => {
            let copy = rule.clone()?;
            left.push(copy)?;
            Ok(())
        }
        Judged::Always | Judged::Broken(_) | Judged::NotAsked => Ok(()),
    }
}

/// Those of these rules that are not decided.
fn undecided(
    alloc: Global,
    rules: &[Program],
    judged: &[Judged],
) -> Result<Vec<Program>, AllocError>
    requires { length judged.now ≡ length rules.now }
    ensures { IfOk result (λ left. left.items ≡ undecided rules.now judged.now) }
{
    let mut left = Vec::new(alloc);
    for index in 0..rules.len() {
        push_undecided(&mut left, &rules[index], &judged[index])?;
    }
    Ok(left)
}

/// Decides a rule by a serial order that breaks some rule, where it is broken once the order's moves are made. The answer is whether it is.
fn decide_by<F: Follower>(
    alloc: Global,
    world: &World,
    others: &[WorldEvent],
    order: &[Move],
    rule: &Program,
    judged: &mut Judged,
    follower: &mut F,
) -> Result<bool, Halt>
    ensures { IsJudged rule.now (record { world = world.now; others = others.now }) judged.old → IsJudged rule.now (record { world = world.now; others = others.now }) judged.new }
{
    if !matches!(judged, Judged::Undecided) {
        return Ok(false);
    }
    match replay(alloc, world, others, order, rule, follower)? {
        Some(found) => {
            *judged = Judged::Broken(found);
            Ok(true)
        }
        None => Ok(false),
    }
}

/// The same of each rule. The answer is whether one is broken.
fn decide_each<F: Follower>(
    alloc: Global,
    world: &World,
    others: &[WorldEvent],
    order: &[Move],
    rules: &[Program],
    judged: &mut Vec<Judged>,
    follower: &mut F,
) -> Result<bool, Halt>
    requires { AreJudged rules.now (record { world = world.now; others = others.now }) judged.old.items }
    ensures { AreJudged rules.now (record { world = world.now; others = others.now }) judged.new.items }
{
    let mut some = false;
    for index in 0..rules.len() {
        let rule = &rules[index];
        let decided = decide_by(
            alloc,
            world,
            others,
            order,
            rule,
            &mut judged[index],
            follower,
        )?;
        some = some || decided;
    }
    Ok(some)
}

/// A rule that was not decided is kept.
fn or_always(judged: &mut Judged)
    ensures { judged.new ≡ or_always judged.old }
{
    if let Judged::Undecided = judged {
        *judged = Judged::Always;
    }
}

/// The rules that were not decided are kept.
fn keep_others(judged: &mut Vec<Judged>)
    ensures { judged.new.items ≡ map or_always judged.old.items }
{
    for i in 0..judged.len() {
        or_always(&mut judged[i]);
    }
}

/// Goes through the serial orders for the rules that are not decided, until one of them is broken. Whether that has decided some, and others are left.
fn decide_some<F: Follower>(
    alloc: Global,
    world: &World,
    others: &[WorldEvent],
    programs: &[Program],
    rules: &[Program],
    judged: &mut Vec<Judged>,
    follower: &mut F,
) -> Result<bool, Halt>
    requires enough { IsComparing (record { world = world.now; others = others.now }) }
    requires programs { AreProgramsOf programs.now world.now.runners }
    requires judged { AreJudged rules.now (record { world = world.now; others = others.now }) judged.old.items }
    ensures { AreJudged rules.now (record { world = world.now; others = others.now }) judged.new.items }
{
    let left = undecided(alloc, rules, judged.as_slice())?;
    if left.is_empty() {
        return Ok(false);
    }
    follower.begins();
    match find_bad_order(alloc, world, others, programs, left.as_slice(), follower)? {
        None => {
            keep_others(judged);
            Ok(false)
        }
        Some(order) => {
            let order = order.as_slice();
            decide_each(alloc, world, others, order, rules, judged, follower)
        }
    }
}

/// What serial orders say of each rule.
fn judge<F: Follower>(
    alloc: Global,
    world: &World,
    others: &[WorldEvent],
    programs: &[Program],
    rules: &[Program],
    judged: &mut Vec<Judged>,
    follower: &mut F,
) -> Result<(), Halt>
    requires enough { IsComparing (record { world = world.now; others = others.now }) }
    requires programs { AreProgramsOf programs.now world.now.runners }
    requires judged { AreJudged rules.now (record { world = world.now; others = others.now }) judged.old.items }
    ensures { AreJudged rules.now (record { world = world.now; others = others.now }) judged.new.items }
{
    for walk in 0..u64::MAX {
        let more = decide_some(alloc, world, others, programs, rules, judged, follower)?;
        if !more {
            return Ok(());
        }
    }
    Ok(())
}

/// Whether each of these rules is kept after every schedule, by the serial orders alone: of these programs of a world's runners, each run alone, one
/// after another, among the events that others have yet to bring, in their order.
///
/// All runners that have not ended commit at levels that compare their reads, and the others bring no start and no step: then what every serial order
/// keeps every schedule keeps. `asked` says which rules are asked. All are asked in one walk through the orders; after an order that breaks some, there
/// is another walk for those that it does not break. An order that does not keep a rule is made step by step in a copy of the world and judged there, before it is
/// reported. An answer is `Undecided` where the rule is kept there, and where the follower, who is asked before each move, has no further move made.
/// The follower is notified of how each whole run ended.
///
/// It fails only when out of memory. The world is left as it was.
pub fn judge_by_orders<F: Follower>(
    alloc: Global,
    world: &World,
    others: &[WorldEvent],
    programs: &[Program],
    rules: &[Program],
    asked: &[bool],
    follower: &mut F,
) -> Result<Vec<Judged>, AllocError>
    requires enough { IsComparing (record { world = world.now; others = others.now }) }
    requires programs { AreProgramsOf programs.now world.now.runners }
    requires asked { length asked.now ≡ length rules.now }
    ensures { IfOk result (λ judged. AreJudged rules.now (record { world = world.now; others = others.now }) judged.items) }
{
    let mut judged = none_decided(alloc, rules, asked)?;
    match judge(alloc, world, others, programs, rules, &mut judged, follower) {
        Ok(()) | Err(Halt::Stopped) => Ok(judged),
        Err(Halt::OutOfMemory) => Err(AllocError),
    }
}

/// Makes serial orders, one after another, as long as the follower lets it, and has it hear how each whole run ended. The others may bring anything
/// but starts and steps: else no order is made.
///
/// It fails only when out of memory. The world is left as it was.
pub fn go_through_orders<F: Follower>(
    alloc: Global,
    world: &World,
    others: &[WorldEvent],
    programs: &[Program],
    follower: &mut F,
) -> Result<(), AllocError>
    requires { AreProgramsOf programs.now world.now.runners }
{
    if !are_foreign(others) {
        return Ok(());
    }
    match find_bad_order(alloc, world, others, programs, &[], follower) {
        Ok(_) | Err(Halt::Stopped) => Ok(()),
        Err(Halt::OutOfMemory) => Err(AllocError),
    }
}
