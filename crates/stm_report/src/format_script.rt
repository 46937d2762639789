//! From the bytes of a source to the report in a sink, in a format.
ghost use Rattle.std.specs.Prelude.{◌≡◌, ◌≤◌, ◌+◌, false, length, IfOk};
ghost use Rattle.stm_devices.specs.declared.transfer.TheConstants.{MOST_READ};
ghost use Rattle.stm_history.specs.History.{now};
ghost use Rattle.stm_report.specs.RunHistory.{IsNew};
ghost use Rattle.stm_report.specs.FormatScript.{IsTextOver, IsTextSince, IsTextFrom, IsWholeTextFrom, IsRunText, Answers, Writes, DoesAs};

use crate::format::Format;
use crate::report_text::{report, report_objects};
use crate::run_history::{has_compaction, run_with_history};
use crate::run_script::ScriptFault;
use std::alloc::{AllocError, Global};
use stm_devices::{ReadFault, Sink, Source, read_all, write_all};
use stm_formats::{RunnerLabel, html_from, svg_from, text_from};
use stm_keys::Keys;
use stm_retry::{Denied, Reply, World, WorldEvent};
use stm_texts::{ReadError, Scenario, opens_with, read_scenario};

/// The report of a world, of the events that led to it from a world whose store was at this revision, and of their replies, in a format. Text, picture and page
/// call the runners what these labels say, and show what revisions changed as these keys have it.
fn render_over(
    alloc: Global,
    format: Format,
    labels: &[RunnerLabel],
    keys: &Keys,
    since: u64,
    world: &World,
    events: &[WorldEvent],
    replies: &[Result<Reply, Denied>],
) -> Result<Vec<u8>, AllocError>
    requires { length events.now ≡ length replies.now }
    ensures { IfOk result (λ text. IsTextOver keys.now.history since format labels.now world.now events.now replies.now text.items) }
{
    match format {
        Format::Lines => Ok(report(alloc, world, replies)?.into_bytes()),
        Format::Json => Ok(report_objects(alloc, world, replies)?.into_bytes()),
        Format::Text { width } => text_from(
            alloc, width, labels, keys, world, since, events, replies,
        ),
        Format::Svg => svg_from(alloc, labels, keys, world, since, events, replies),
        Format::Html => html_from(alloc, labels, keys, world, since, events, replies),
    }
}

/// The report of a world, of the events that led to it from a world whose store was at this revision, and of their replies, in a format. Text, picture and page
/// call the runners what these labels say, and do not show what the store has dropped.
///
/// There is a reply to each event. It fails where a growth was refused.
pub fn render(
    alloc: Global,
    format: Format,
    labels: &[RunnerLabel],
    since: u64,
    world: &World,
    events: &[WorldEvent],
    replies: &[Result<Reply, Denied>],
) -> Result<Vec<u8>, AllocError>
    requires { length events.now ≡ length replies.now }
    ensures { IfOk result (λ text. IsTextSince since format labels.now world.now events.now replies.now text.items) }
{
    let keys = world.store().keys();
    render_over(alloc, format, labels, keys, since, world, events, replies)
}

/// The store's revision.
pub fn revision_of(world: &World) -> u64
    ensures { result ≡ now world.now.standing.history }
{
    world.store().keys().revision()
}

/// The report of what a world replies to these events. It does not show what the store has dropped.
fn kept_from(
    alloc: Global,
    format: Format,
    labels: &[RunnerLabel],
    world: &mut World,
    events: &[WorldEvent],
) -> Result<Vec<u8>, AllocError>
    ensures { IfOk result (λ text. IsTextFrom format labels.now world.old events.now text.items) }
{
    let since = revision_of(world);
    match world.run(events) {
        Ok(replies) => render(
            alloc,
            format,
            labels,
            since,
            world,
            events,
            replies.as_slice(),
        ),
        Err(_) => Err(AllocError),
    }
}

/// The same, but it shows all.
fn whole_from(
    alloc: Global,
    format: Format,
    labels: &[RunnerLabel],
    world: &mut World,
    events: &[WorldEvent],
) -> Result<Vec<u8>, AllocError>
    requires { IsNew world.old }
    ensures { IfOk result (λ text. IsWholeTextFrom format labels.now world.old events.now text.items) }
{
    let since = revision_of(world);
    let mut keys = world.store().keys().copy()?;
    let replies = run_with_history(alloc, world, &mut keys, events)?;
    render_over(
        alloc,
        format,
        labels,
        &keys,
        since,
        world,
        events,
        replies.as_slice(),
    )
}

/// The report of what a world replies to these events. Where they compact its store, text, picture and page show also what that drops.
fn report_from(
    alloc: Global,
    format: Format,
    labels: &[RunnerLabel],
    world: &mut World,
    events: &[WorldEvent],
) -> Result<Vec<u8>, AllocError>
    requires { IsNew world.old }
    ensures { IfOk result (λ text. IsWholeTextFrom format labels.now world.old events.now text.items) }
{
    match format {
        Format::Lines => kept_from(alloc, format, labels, world, events),
        Format::Json => kept_from(alloc, format, labels, world, events),
        _ => {
            if has_compaction(events) {
                whole_from(alloc, format, labels, world, events)
            } else {
                kept_from(alloc, format, labels, world, events)
            }
        }
    }
}

/// The report of a scenario's run.
fn run_report(
    alloc: Global,
    format: Format,
    labels: &[RunnerLabel],
    scenario: &Scenario,
) -> Result<Vec<u8>, AllocError>
    ensures { IfOk result (λ text. IsRunText format labels.now scenario.now text.items) }
{
    let opening = opens_with(scenario.opening);
    let mut world = World::with_limits(alloc, opening.revision(), opening.operations())?;
    let text = report_from(
        alloc,
        format,
        labels,
        &mut world,
        scenario.events.as_slice(),
    );
    drop(world);
    text
}

/// The report of the scenario that bytes spell.
fn report_of(
    alloc: Global,
    format: Format,
    labels: &[RunnerLabel],
    bytes: &[u8],
) -> Result<Vec<u8>, ScriptFault>
    ensures { Answers (λ v. v.items) format labels.now bytes.now result }
{
    let scenario = match read_scenario(alloc, bytes) {
        Ok(scenario) => scenario,
        Err(ReadError::OutOfMemory) => return Err(ScriptFault::OutOfMemory),
        Err(ReadError::Bad(fault)) => return Err(ScriptFault::Bad(fault)),
    };
    match run_report(alloc, format, labels, &scenario) {
        Ok(text) => Ok(text),
        Err(_) => Err(ScriptFault::OutOfMemory),
    }
}

/// Writes the report of the scenario that bytes spell, once it is whole.
fn write_report<W: Sink>(
    alloc: Global,
    format: Format,
    labels: &[RunnerLabel],
    bytes: &[u8],
    sink: &mut W,
) -> Result<(), ScriptFault>
    requires { W.failed sink.old ≡ false }
    ensures { Writes format labels.now bytes.now (W.held sink.old) (W.held sink.new) (W.failed sink.new) result }
{
    let text = report_of(alloc, format, labels, bytes)?;
    match write_all(sink, text.as_slice()) {
        Ok(()) => Ok(()),
        Err(_) => Err(ScriptFault::Write),
    }
}

/// Reads a scenario from a source to its end, runs it over an empty store, and writes the report of the run to a sink in a
/// format, with runners of these labels. Nothing is written before the report is whole.
///
/// Neither device has failed before. It fails as `Bad` with the scenario's first fault, as `OutOfMemory` where a
/// growth was refused, and as `Read` where the source has failed: then nothing was written. It fails as `Write`
/// where the sink has failed: then a front of the report was written. At most 16777217 bytes are read, in at most so
/// many reads, whatever it answers.
pub fn script_as<S: Source, W: Sink>(
    alloc: Global,
    format: Format,
    labels: &[RunnerLabel],
    source: &mut S,
    sink: &mut W,
) -> Result<(), ScriptFault>
    requires source_works { S.failed source.old ≡ false }
    requires sink_works { W.failed sink.old ≡ false }
    ensures done { DoesAs format labels.now (record {
      input = S.left source.old;
      before = W.held sink.old;
      after = W.held sink.new;
      source_failed = S.failed source.new;
      sink_failed = W.failed sink.new;
    }) result }
    ensures bounded { S.reads source.new ≤ S.reads source.old + MOST_READ }
{
    match read_all(alloc, source) {
        Ok(bytes) => write_report(alloc, format, labels, bytes.as_slice(), sink),
        Err(ReadFault::OutOfMemory) => Err(ScriptFault::OutOfMemory),
        Err(ReadFault::Device) => Err(ScriptFault::Read),
    }
}
