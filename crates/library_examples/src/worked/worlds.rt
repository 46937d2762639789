//! A world with a client beside its programs, and programs that are run to their end.
use anyhow::Result;
use std::alloc::Global;
use stm_driving::{
    End, Level, NotCommitted, Program, Reply, Store, TransactionError, World, WorldClient,
    atomically, run_at_once, run_to_end,
};
use stm_program_texts::read_program_text;
use stm_retry::WorldEvent;

/// Copies "x" to "y".
const COPY: &str = r#"[["put","y",["get","x"],0],["emit",["get","x"]]]"#;

/// Writes, and then aborts.
const ABORT: &str = r#"[["put","y","never",0],["abort","no"]]"#;

fn program(alloc: Global, text: &str) -> Result<Program> {
    Ok(read_program_text(alloc, text.as_bytes())?)
}

/// The client puts "x".
fn put_x(
    alloc: Global,
    client: &mut WorldClient,
    value: &str,
) -> Result<(), NotCommitted<TransactionError>> {
    atomically(
        alloc,
        client,
        Level::Serializable,
        1,
        |tx| tx.put("x", value, 0),
    )
}

fn step(world: &mut World, runner: u64) -> &'static str {
    let reply = world.step(&WorldEvent::Step { runner });
    let name = match &reply {
        Ok(reply) => name_of(reply),
        Err(_) => "refused",
    };
    drop(reply);
    name
}

fn name_of(reply: &Reply) -> &'static str {
    match reply {
        Reply::Fetched { .. } => "fetched",
        Reply::Committed { .. } => "committed",
        Reply::GaveUp { .. } => "gave up",
        Reply::Aborted { .. } => "aborted",
        _ => "another reply",
    }
}

/// A program and the client want "x" at the same time: the program's commit fails, and the next program commits.
fn play_in_a_world(rt: &impl Print, alloc: Global, client: &mut WorldClient) -> Result<()> {
    put_x(alloc, client, "1")?;
    let runner = client
        .world
        .start(program(alloc, COPY)?, Level::Serializable, 1)?;
    let fetched = step(&mut client.world, runner);
    put_x(alloc, client, "2")?;
    let ended = step(&mut client.world, runner);
    println!(rt; "beside a client: {fetched}, {ended}")?;
    let reply = run_to_end(
        &mut client.world,
        program(alloc, COPY)?,
        Level::Serializable,
        1,
    )?;
    let name = name_of(&reply);
    drop(reply);
    let aborted = run_to_end(
        &mut client.world,
        program(alloc, ABORT)?,
        Level::Serializable,
        1,
    )?;
    println!(rt;
        "to its end: {name}, {}, entries {}",
        name_of(&aborted),
        client.world.history().len()
    )?;
    drop(aborted);
    Ok(())
}

/// A world with a client beside its programs.
pub(crate) fn in_a_world(rt: &impl Print, alloc: Global) -> Result<()> {
    let mut client = WorldClient {
        world: World::new(alloc)?,
    };
    let played = play_in_a_world(rt, alloc, &mut client);
    drop(client);
    played
}

/// How a program ends that is run over a store at once.
fn run_text(alloc: Global, store: &mut Store, text: &str) -> Result<&'static str> {
    let program = program(alloc, text)?;
    let run = run_at_once(alloc, store, &program, Level::SerializableSnapshot);
    drop(program);
    let run = run?;
    let end = match &run.end {
        End::Done => "done",
        End::Aborted(_) => "aborted",
        End::Faulted(_) => "faulted",
    };
    drop(run);
    Ok(end)
}

fn play_at_once(rt: &impl Print, alloc: Global, store: &mut Store) -> Result<()> {
    let done = run_text(alloc, store, COPY)?;
    let aborted = run_text(alloc, store, ABORT)?;
    println!(rt;
        "at once: {done}, {aborted}, revision {}",
        store.keys().revision()
    )?;
    Ok(())
}

/// A plain store over which programs are run at once.
pub(crate) fn over_a_store(rt: &impl Print, alloc: Global) -> Result<()> {
    let mut store = Store::new(alloc)?;
    let played = play_at_once(rt, alloc, &mut store);
    drop(store);
    played
}
