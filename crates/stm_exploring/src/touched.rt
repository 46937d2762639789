//! The keys and leases that programs and the others' transactions name.
ghost use Rattle.std.specs.Prelude.{◌≡◌, IfOk};
ghost use Rattle.std.specs.List.{list_all};
ghost use Rattle.stm_outcome.specs.declared.txn.Compare.{Compare as CompareValue};
ghost use Rattle.stm_narrow.specs.Foreign.{op_keeps_to, txn_keeps_to};
ghost use Rattle.stm_narrow.specs.Touching.{is_touched, is_written};
ghost use Rattle.stm_exploring.specs.Narrowing.{brings_within, is_key_of, is_lease_of, keeps_to};

use std::alloc::{AllocError, Global};
use std::collections::BTreeSet;
use stm_history::Text;
use stm_keys::Keys;
use stm_named_keys::{Name, Written, keys_looked_up, keys_written};
use stm_program::Program;
use stm_texts::WorldEvent;
use stm_txn::{Compare, Op, Txn};

/// Keys and leases.
#[derive(Drop)]
pub(crate) struct Touched {
    pub(crate) keys: BTreeSet<Text>,
    pub(crate) leases: BTreeSet<u64>,
}

/// Adds the keys of names, and the beginnings of those that are not spelled whole.
fn add_names(keys: &mut BTreeSet<Text>, names: &[Name]) -> Result<(), AllocError> {
    for name in names {
        let key = name.text.clone()?;
        keys.insert(key)?;
    }
    Ok(())
}

/// Adds what is written: its keys, and the leases on which they are put.
fn add_written(touched: &mut Touched, all: &[Written]) -> Result<(), AllocError> {
    for written in all {
        let key = written.key.text.clone()?;
        touched.keys.insert(key)?;
        touched.leases.insert(written.lease)?;
    }
    Ok(())
}

/// Adds what a program names.
fn add_program(alloc: Global, touched: &mut Touched, program: &Program) -> Result<(), AllocError> {
    let names = keys_looked_up(alloc, program)?;
    add_names(&mut touched.keys, names.as_slice())?;
    let all = keys_written(alloc, program)?;
    add_written(touched, all.as_slice())
}

/// Adds what these programs name.
fn add_programs(
    alloc: Global,
    touched: &mut Touched,
    programs: &[Program],
) -> Result<(), AllocError> {
    for program in programs {
        add_program(alloc, touched, program)?;
    }
    Ok(())
}

/// Adds what operations name: their keys, and the leases on which they are put.
fn add_ops(touched: &mut Touched, ops: &[Op]) -> Result<(), AllocError> {
    for op in ops {
        let key = op.key().clone()?;
        touched.keys.insert(key)?;
        if let Op::Put { lease, .. } = op {
            touched.leases.insert(*lease)?;
        }
    }
    Ok(())
}

/// Adds what a transaction names.
fn add_txn(touched: &mut Touched, txn: &Txn) -> Result<(), AllocError> {
    for compare in txn.compares.as_slice() {
        let key = compare.key.clone()?;
        touched.keys.insert(key)?;
    }
    add_ops(touched, txn.success.as_slice())?;
    add_ops(touched, txn.failure.as_slice())
}

/// Adds what the transactions among these events name.
fn add_events(touched: &mut Touched, events: &[WorldEvent]) -> Result<(), AllocError> {
    for event in events {
        if let WorldEvent::Txn { txn } = event {
            add_txn(touched, txn)?;
        }
    }
    Ok(())
}

/// Adds the leases to which these keys are attached in a store.
fn add_attached(
    leases: &mut BTreeSet<u64>,
    keys: &BTreeSet<Text>,
    store: &Keys,
) -> Result<(), AllocError> {
    for key in keys {
        if let Some(state) = store.get(key.as_str()) {
            leases.insert(state.lease)?;
        }
    }
    Ok(())
}

/// Adds what these events, programs and rules name, and the leases to which the keys are attached in a store.
fn add_all(
    alloc: Global,
    touched: &mut Touched,
    events: &[WorldEvent],
    programs: &[Program],
    rules: &[Program],
    store: &Keys,
) -> Result<(), AllocError> {
    add_events(touched, events)?;
    add_programs(alloc, touched, programs)?;
    add_programs(alloc, touched, rules)?;
    add_attached(&mut touched.leases, &touched.keys, store)
}

/// What these events, programs and rules name, and the leases to which the keys are attached in a store. Of a key that is not spelled whole it is the beginning.
pub(crate) fn touched_by(
    alloc: Global,
    events: &[WorldEvent],
    programs: &[Program],
    rules: &[Program],
    store: &Keys,
) -> Result<Touched, AllocError> {
    let mut touched = Touched {
        keys: BTreeSet::new(alloc),
        leases: BTreeSet::new(alloc),
    };
    add_all(alloc, &mut touched, events, programs, rules, store)?;
    Ok(touched)
}

/// Whether a key is spelled whole, and is one of these.
fn has_name(touched: &Touched, name: &Name) -> bool
    ensures { result ≡ is_touched (is_key_of touched.now) name.now }
{
    name.is_whole && touched.keys.contains(&name.text)
}

/// Whether a key that is written is spelled whole, and it and its lease are among these.
fn has_written(touched: &Touched, written: &Written) -> bool
    ensures { result ≡ is_written (is_key_of touched.now) (is_lease_of touched.now) written.now }
{
    has_name(touched, &written.key) && touched.leases.contains(&written.lease)
}

/// The same of all names.
fn has_names(touched: &Touched, names: &[Name]) -> bool
    ensures { result ≡ list_all (is_touched (is_key_of touched.now)) names.now }
{
    names.iter().all(|name| has_name(touched, name))
}

/// The same of all that is written.
fn has_all_written(touched: &Touched, all: &[Written]) -> bool
    ensures { result ≡ list_all (is_written (is_key_of touched.now) (is_lease_of touched.now)) all.now }
{
    all.iter().all(|written| has_written(touched, written))
}

/// Whether a program names these keys and leases alone, and no key that is not spelled whole.
fn keeps_to(alloc: Global, touched: &Touched, program: &Program) -> Result<bool, AllocError>
    ensures { IfOk result (λ keeps. keeps ≡ keeps_to touched.now program.now) }
{
    let names = keys_looked_up(alloc, program)?;
    let all = keys_written(alloc, program)?;
    Ok(has_names(touched, names.as_slice()) && has_all_written(touched, all.as_slice()))
}

/// Whether each of these programs does.
pub(crate) fn keep_to(
    alloc: Global,
    touched: &Touched,
    programs: &[Program],
) -> Result<bool, AllocError>
    ensures { IfOk result (λ keep. keep ≡ list_all (keeps_to touched.now) programs.now) }
{
    for program in programs {
        if !keeps_to(alloc, touched, program)? {
            return Ok(false);
        }
    }
    Ok(true)
}

/// Whether an operation writes one of these keys, on one of these leases, or reads the current state.
fn writes_within(touched: &Touched, op: &Op) -> bool
    ensures { result ≡ op_keeps_to (is_key_of touched.now) (is_lease_of touched.now) op.now }
{
    match op {
        Op::Get { rev, .. } => *rev == 0,
        Op::Put { key, lease, .. } => touched.keys.contains(key) && touched.leases.contains(lease),
        Op::Del { key } => touched.keys.contains(key),
    }
}

/// The same of all operations.
fn write_within(touched: &Touched, ops: &[Op]) -> bool
    ensures { result ≡ list_all (op_keeps_to (is_key_of touched.now) (is_lease_of touched.now)) ops.now }
{
    ops.iter().all(|op| writes_within(touched, op))
}

/// Whether a compare looks at one of these keys.
fn compares_within(touched: &Touched, compare: &Compare) -> bool
    ensures { result ≡ is_key_of touched.now compare.now.key }
{
    touched.keys.contains(&compare.key)
}

/// The same of all compares.
fn compare_within(touched: &Touched, compares: &[Compare]) -> bool
    ensures { result ≡ list_all (λ (compare : CompareValue). is_key_of touched.now compare.key) compares.now }
{
    compares
        .iter()
        .all(|compare| compares_within(touched, compare))
}

/// Whether a transaction compares and writes these keys alone, whichever of its lists runs.
fn is_txn_within(touched: &Touched, txn: &Txn) -> bool
    ensures { result ≡ txn_keeps_to (is_key_of touched.now) (is_lease_of touched.now) txn.now }
{
    compare_within(touched, txn.compares.as_slice())
        && write_within(touched, txn.success.as_slice())
        && write_within(touched, txn.failure.as_slice())
}

/// Whether an event is such a transaction.
fn brings_within(touched: &Touched, event: &WorldEvent) -> bool
    ensures { result ≡ brings_within touched.now event.now }
{
    match event {
        WorldEvent::Txn { txn } => is_txn_within(touched, txn),
        _ => false,
    }
}

/// Whether each of these events is.
pub(crate) fn bring_within(touched: &Touched, events: &[WorldEvent]) -> bool
    ensures { result ≡ list_all (brings_within touched.now) events.now }
{
    events.iter().all(|event| brings_within(touched, event))
}
