//! Times transactions of one put each over few and over many keys, and reads of the past of keys with many versions,
//! and holds a long history while its bytes are counted, and longer ones that are compacted as they grow.
//!
//! The figures go to standard error. They are of one machine at one moment: no proof is about time.
#![tactic(auto)]

ghost use Rattle.std.specs.Prelude.{◌<◌};

use anyhow::Result;
use std::alloc::Global;
use std::rt::Clock;
use std::time::{Duration, Instant};
use stm_txn::{Keys, Op, Refusal, ShortList, Store, Text, Txn};

/// How many transactions are timed.
const PUTS: u32 = 1_000_000;

/// How many revisions are held while their bytes are counted.
const REVISIONS: u32 = 100_000;

/// Behind how many revisions a store is compacted that is compacted as it grows.
const BETWEEN: u32 = 1_000;

/// How many keys are put in turn before reads are timed.
const KEYS: u32 = 8;

fn main(rt: HostRuntime) -> Result<()> {
    hold_revisions(&rt, rt.alloc(), REVISIONS)?;
    hold_compacted(&rt, rt.alloc())?;
    time_puts(&rt, rt.alloc(), 8)?;
    time_puts(&rt, rt.alloc(), 2_000)?;
    time_puts(&rt, rt.alloc(), 100_000)?;
    time_reads(&rt, rt.alloc(), 1_000)?;
    time_reads(&rt, rt.alloc(), 10_000)?;
    time_reads(&rt, rt.alloc(), 100_000)?;
    time_reads(&rt, rt.alloc(), 1_000_000)
}

/// A transaction that puts one key.
fn put_of(alloc: Global, key: Text, value: Text) -> Txn {
    let op = Op::Put {
        key,
        value,
        lease: 0,
    };
    Txn {
        compares: ShortList::new(alloc),
        success: ShortList::one(alloc, op),
        failure: ShortList::new(alloc),
    }
}

/// Runs a transaction that puts one key. It is dropped at one place, whatever the store answers.
fn put(alloc: Global, store: &mut Store, number: u32) -> Result<(), Refusal> {
    let key = Text::new(format!(in alloc; "key-{number}")?);
    let value = Text::copy_of(alloc, "value")?;
    let txn = put_of(alloc, key, value);
    let outcome = store.txn(&txn);
    drop(txn);
    match outcome {
        Ok(answer) => {
            drop(answer);
            Ok(())
        }
        Err(refusal) => Err(refusal),
    }
}

/// Puts `keys` keys in turn, `count` puts in all.
fn put_in_turn(alloc: Global, store: &mut Store, keys: u32, count: u32) -> Result<()>
    requires { 0 < keys }
{
    for number in 0..count {
        put(alloc, store, number % keys)?;
    }
    Ok(())
}

/// Times transactions over this many keys, in an empty store.
fn puts_over(rt: &(impl Clock + Eprint), alloc: Global, store: &mut Store, keys: u32) -> Result<()>
    requires { 0 < keys }
{
    put_in_turn(alloc, store, keys, keys)?;
    let start = Instant::now(rt)?;
    put_in_turn(alloc, store, keys, PUTS)?;
    let elapsed = start.elapsed(rt)?;
    report_rate(rt, keys, elapsed / PUTS)
}

/// The same in a store of its own.
fn time_puts(rt: &(impl Clock + Eprint), alloc: Global, keys: u32) -> Result<()>
    requires { 0 < keys }
{
    let mut store = Store::new(alloc)?;
    let outcome = puts_over(rt, alloc, &mut store, keys);
    drop(store);
    outcome
}

/// Reads the first key at `count` revisions, from the first change on, and counts where it was present.
fn read_often(keys: &Keys, count: u32) -> Result<u32> {
    let mut present = 0_u32;
    for number in 0..count {
        let revision = u64::from(number) + 2;
        if keys.get_at("key-0", revision)?.is_some() {
            present = present.saturating_add(1);
        }
    }
    Ok(present)
}

/// Puts one key once, and then another one `count` times.
fn put_after(alloc: Global, store: &mut Store, count: u32) -> Result<()> {
    put(alloc, store, 0)?;
    for _ in 0..count {
        put(alloc, store, 1)?;
    }
    Ok(())
}

/// Times reads of a key at each of these revisions, of which every eighth changed it, in an empty store.
fn reads_back(
    rt: &(impl Clock + Eprint),
    alloc: Global,
    store: &mut Store,
    revisions: u32,
) -> Result<()>
    requires { 0 < revisions }
{
    put_in_turn(alloc, store, KEYS, revisions)?;
    let start = Instant::now(rt)?;
    let present = read_often(store.keys(), revisions)?;
    let elapsed = start.elapsed(rt)?;
    report_read(rt, revisions, elapsed / revisions, present)
}

/// The same in a store of its own.
fn time_reads(rt: &(impl Clock + Eprint), alloc: Global, revisions: u32) -> Result<()>
    requires { 0 < revisions }
{
    let mut store = Store::new(alloc)?;
    let outcome = reads_back(rt, alloc, &mut store, revisions);
    drop(store);
    outcome
}

/// Adds this many revisions of one short put to an empty store, and prints a line. `bench/store` counts the bytes there, from
/// outside.
fn print_beside(rt: &impl Eprint, alloc: Global, store: &mut Store, revisions: u32) -> Result<()> {
    put_after(alloc, store, revisions)?;
    let counter = store.keys().revision();
    eprintln!(rt; "held at revision {counter}")?;
    Ok(())
}

/// The same in a store of its own, which is held while the line is printed.
fn hold_revisions(rt: &impl Eprint, alloc: Global, revisions: u32) -> Result<()> {
    let mut store = Store::new(alloc)?;
    let outcome = print_beside(rt, alloc, &mut store, revisions);
    drop(store);
    outcome
}

/// Puts a few keys in turn, `count` puts in all. After every thousandth put the store is compacted at its newest revision.
fn put_compacting(alloc: Global, store: &mut Store, count: u32) -> Result<()> {
    for number in 0..count {
        put(alloc, store, number % KEYS)?;
        if number % BETWEEN == BETWEEN - 1 {
            let newest = store.keys().revision();
            store.compact(newest)?;
        }
    }
    Ok(())
}

/// Adds this many revisions to a store that is compacted as it grows, and prints a line, beside which the bytes are counted.
fn print_compacted(rt: &impl Eprint, alloc: Global, store: &mut Store, more: u32) -> Result<()> {
    put_compacting(alloc, store, more)?;
    let counter = store.keys().revision();
    let floor = store.floor();
    eprintln!(rt; "held at revision {counter}, compacted at {floor}")?;
    Ok(())
}

/// The lines of a store that has come to 10,000, to 100,000 and to 1,000,000 puts.
fn print_growing(rt: &impl Eprint, alloc: Global, store: &mut Store) -> Result<()> {
    print_compacted(rt, alloc, store, 10_000)?;
    print_compacted(rt, alloc, store, 90_000)?;
    print_compacted(rt, alloc, store, 900_000)
}

/// The same in a store of its own.
fn hold_compacted(rt: &impl Eprint, alloc: Global) -> Result<()> {
    let mut store = Store::new(alloc)?;
    let outcome = print_growing(rt, alloc, &mut store);
    drop(store);
    outcome
}

/// Prints how many transactions a second takes.
fn report_rate(rt: &impl Eprint, keys: u32, each: Duration) -> Result<()> {
    let rate = 1_000_000_000_u128.checked_div(each.as_nanos()).unwrap_or(0);
    eprintln!(rt; "transactions of one put over {keys:>6} keys: {rate:>8} in a second")?;
    Ok(())
}

/// Prints how long a read takes, and how many found the key.
fn report_read(rt: &impl Eprint, revisions: u32, each: Duration, present: u32) -> Result<()> {
    let nanos = each.as_nanos();
    eprintln!(rt;
        "reads of the past over {revisions:>7} revisions: {nanos:>8} ns each, {present} found the key"
    )?;
    Ok(())
}
