//! A search from code: Ana goes off call if Ben is on call, and Ben does the same. Can nobody be on call afterwards? At each of two levels every
//! interleaving is looked at.
use anyhow::Result;
use std::alloc::Global;
use std::slice;
use stm_explore::{Budget, Explored, Nobody, World, explore};
use stm_program::{Level, Program};
use stm_program_texts::read_program_text;

/// "If the other is on call, I am not."
const ANA: &str = r#"[["if",["eq",["get","ben"],"yes"],[["put","ana","no",0]],[]]]"#;

const BEN: &str = r#"[["if",["eq",["get","ana"],"yes"],[["put","ben","no",0]],[]]]"#;

/// Both are on call at first.
const BOTH: &str = r#"[["put","ana","yes",0],["put","ben","yes",0]]"#;

/// The rule that has to hold after every move: a program that aborts where nobody is on call.
const RULE: &str =
    r#"[["if",["and",["eq",["get","ana"],"no"],["eq",["get","ben"],"no"]],[["abort","nobody is on call"]],[]]]"#;

pub(crate) fn run(rt: &impl Print, alloc: Global) -> Result<()> {
    println!(rt; "ReadCommitted: {}", search(alloc, Level::ReadCommitted)?)?;
    println!(rt;
        "RepeatableReads: {}",
        search(alloc, Level::RepeatableReads)?
    )?;
    Ok(())
}

fn program(alloc: Global, text: &str) -> Result<Program> {
    Ok(read_program_text(alloc, text.as_bytes())?)
}

/// A world in which both programs are about to run at a level.
fn start(alloc: Global, world: &mut World, level: Level) -> Result<()> {
    let setup = world.start(program(alloc, BOTH)?, level, 1)?;
    drop(world.step(&stm_explore::WorldEvent::Step { runner: setup }));
    let _ana = world.start(program(alloc, ANA)?, level, 2)?;
    let _ben = world.start(program(alloc, BEN)?, level, 2)?;
    Ok(())
}

/// What every interleaving comes to at a level.
fn search(alloc: Global, level: Level) -> Result<&'static str> {
    let rule = program(alloc, RULE)?;
    let mut world = World::new(alloc)?;
    let started = start(alloc, &mut world, level);
    let searched = match started {
        Ok(()) => look(alloc, &world, &rule),
        Err(error) => Err(error),
    };
    drop(world);
    drop(rule);
    searched
}

fn look(alloc: Global, world: &World, rule: &Program) -> Result<&'static str> {
    let mut budget = Budget {
        left: 10_000,
        observer: Nobody,
    };
    let answers = explore(alloc, world, &[], slice::from_ref(rule), &mut budget)?;
    match answers.as_slice() {
        [explored] => Ok(verdict(explored)),
        _ => Ok("there is an answer for each rule"),
    }
}

fn verdict(explored: &Explored) -> &'static str {
    match explored {
        Explored::Always { .. } => "somebody is always on call",
        Explored::Broken { .. } => "nobody may be on call",
        Explored::Open { .. } => "there are more schedules than were looked at",
    }
}
