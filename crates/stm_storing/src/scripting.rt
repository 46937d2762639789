//! Going on with a scenario over the world of a file.
ghost use Rattle.std.specs.Prelude.{◌≡◌, ℕ, Ok as OkOf, length, IfOk, IfErr, OnOk, IsTrue, false};
ghost use Rattle.std.specs.Io.KnownBytes.{Appends};
ghost use Rattle.stm_records.specs.Disk.{Only, LeavesOnly};
ghost use Rattle.stm_records.specs.Head.{IsHurt};
ghost use Rattle.stm_records.specs.RecordFiles.{IsSettled, OpensAlike};
ghost use Rattle.stm_texts.specs.Opens.{setup_of, IsOpening};
ghost use Rattle.stm_texts.specs.Reading.{scenario_in};
ghost use Rattle.stm_history.specs.History.{now};
ghost use Rattle.stm_world.specs.World.{opened as opened_world, replies_to, world_after};
ghost use Rattle.stm_lasting.specs.Kept.{IsKept, IsReady, IsWorldBeforeOrAfter, LeadsNowhere, HasRecords};
ghost use Rattle.stm_storing.specs.Faults.{IsOfOpening};
ghost use Rattle.stm_storing.specs.Storing.{IsOpened, HasRun, HasPrinted, HasGoneOn, LeavesAround, LeavesFoundOrAfter};

use crate::fault::StoreFault;
use std::alloc::Global;
use stm_devices::{Sink, write_all};
use stm_lasting::{Disk, Kept, RecordFile, World, empty_world, go_on, open};
use stm_report::{Denied, Format, Reply, Scenario, WorldEvent, render, revision_of};

/// What a scenario came to that was gone on with.
#[derive(Drop)]
pub(crate) struct Gone {
    /// The world after it.
    pub(crate) world: World,
    /// The replies to its events.
    pub(crate) replies: Vec<Result<Reply, Denied>>,
    /// The store's revision before it.
    pub(crate) since: u64,
}

/// Opens the world of a file, which was opened with these bytes: from then on its end is known.
pub(crate) fn opened<D: Disk>(
    records: &mut RecordFile<D>,
    bytes: Vec<u8>,
) -> Result<Kept, StoreFault>
    requires bytes { bytes.items ≡ D.seen records.old.disk }
    requires durable { Only (D.seen records.old.disk) (D.may_leave records.old.disk) }
    requires usable { IsTrue (D.is_usable records.old.disk) }
    ensures settled { OnOk result (IsSettled D.is_usable D.seen D.may_leave records.new) }
    ensures end { IfOk result (λ kept. kept.end ≡ length (D.seen records.new.disk)) }
    ensures count { IfOk result (λ kept. HasRecords (D.seen records.new.disk) kept.count) }
    ensures opens { IfOk result (λ kept. IsOpened (D.seen records.old.disk) (D.seen records.new.disk) kept.world) }
    ensures hurt { IfErr result (λ e. (at : ℕ) → e ≡ StoreFault.Damaged at → IsHurt (D.seen records.old.disk) at
        × LeavesOnly D.moment D.left_since records.old.disk records.new.disk (λ c. c ≡ D.seen records.old.disk)) }
    ensures nowhere { IfErr result (λ e. (at : ℕ) → e ≡ StoreFault.NoScenario at → LeadsNowhere (D.seen records.old.disk)) }
    ensures opening { IfErr result IsOfOpening }
    ensures any_moment { LeavesOnly D.moment D.left_since records.old.disk records.new.disk (OpensAlike (D.seen records.old.disk)) }
{
    match open(records.alloc, &mut records.disk, bytes) {
        Ok(kept) => {
            records.end = kept.end;
            Ok(kept)
        }
        Err(fault) => Err(StoreFault::of_opening(fault)),
    }
}

/// The world that a scenario is to go on with: that of the file, or an empty one where the file has no records. `OpenAlready`: the scenario says what its
/// store opens with, and the file has a store.
pub(crate) fn ready_world(
    alloc: Global,
    kept: Kept,
    scenario: &Scenario,
) -> Result<World, StoreFault>
    requires { IsOpening scenario.now.opening }
    ensures new { kept.end ≡ 0 → IfOk result (λ w. w ≡ opened_world (setup_of scenario.now.opening)) }
    ensures old { (kept.end ≡ 0 → ⊥) → IfOk result (λ w. w ≡ kept.world) }
{
    if kept.end == 0 {
        let world = empty_world(alloc, scenario)?;
        return Ok(world);
    }
    if scenario.opening.is_some() {
        return Err(StoreFault::OpenAlready);
    }
    Ok(kept.world)
}

/// Goes on with the scenario that a text spells, over a world that is ready for it. It is answered once it lasts.
pub(crate) fn go_on_over<D: Disk>(
    records: &mut RecordFile<D>,
    mut world: World,
    text: &[u8],
    scenario: &Scenario,
) -> Result<Gone, StoreFault>
    requires spelled { scenario_in text.now ≡ OkOf scenario.now }
    requires settled { IsSettled D.is_usable D.seen D.may_leave records.old }
    requires ready { IsReady (D.seen records.old.disk) world scenario.now }
    ensures settled { OnOk result (IsSettled D.is_usable D.seen D.may_leave records.new) }
    ensures kept { IfOk result (λ gone. IsKept (D.seen records.new.disk) gone.world) }
    ensures world { IfOk result (λ gone. gone.world ≡ world_after scenario.now.events world) }
    ensures replies { IfOk result (λ gone. gone.replies.items ≡ replies_to scenario.now.events world) }
    ensures since { IfOk result (λ gone. gone.since ≡ now world.standing.history) }
    ensures any_moment { LeavesOnly D.moment D.left_since records.old.disk records.new.disk
        (IsWorldBeforeOrAfter (D.seen records.old.disk) text.now (world_after scenario.now.events world)) }
{
    let since = revision_of(&world);
    match go_on(records, &mut world, text, scenario) {
        Ok(replies) => Ok(Gone {
            world,
            replies,
            since,
        }),
        Err(fault) => {
            drop(world);
            Err(StoreFault::of_keeping(fault))
        }
    }
}

/// Goes on with the scenario that a text spells over the world of a file that was opened. It is answered once it lasts.
pub(crate) fn go_on_with<D: Disk>(
    records: &mut RecordFile<D>,
    kept: Kept,
    text: &[u8],
    scenario: &Scenario,
) -> Result<Gone, StoreFault>
    requires settled { IsSettled D.is_usable D.seen D.may_leave records.old }
    requires end { kept.end ≡ length (D.seen records.old.disk) }
    requires kept { IsKept (D.seen records.old.disk) kept.world }
    requires spelled { scenario_in text.now ≡ OkOf scenario.now }
    requires opening { IsOpening scenario.now.opening }
    ensures settled { OnOk result (IsSettled D.is_usable D.seen D.may_leave records.new) }
    ensures kept { IfOk result (λ gone. IsKept (D.seen records.new.disk) gone.world) }
    ensures run { IfOk result (λ gone. HasRun (D.seen records.old.disk) scenario.now gone.since gone.world gone.replies.items) }
    ensures any_moment { LeavesOnly D.moment D.left_since records.old.disk records.new.disk
        (LeavesAround (D.seen records.old.disk) text.now scenario.now) }
{
    let world = ready_world(records.alloc, kept, scenario)?;
    match go_on_over(records, world, text, scenario) {
        Ok(gone) => Ok(gone),
        Err(fault) => Err(fault),
    }
}

/// Writes a text.
pub(crate) fn print_text<W: Sink>(text: &str, out: &mut W) -> Result<(), StoreFault>
    requires { W.failed out.old ≡ false }
    ensures printed { OnOk result (Appends (W.held out.old) (W.held out.new) text.now) }
    ensures silent { IfErr result (λ e. (e ≡ StoreFault.Output → ⊥) → W.held out.new ≡ W.held out.old) }
    ensures output { IfErr result (λ e. e ≡ StoreFault.Output) }
{
    write_all(out, text.as_bytes())?;
    Ok(())
}

/// Writes the report of a world, and of these events with their replies, before which its store was at this revision.
pub(crate) fn print_report<W: Sink>(
    alloc: Global,
    format: Format,
    since: u64,
    world: &World,
    events: &[WorldEvent],
    replies: &[Result<Reply, Denied>],
    out: &mut W,
) -> Result<(), StoreFault>
    requires replies { length events.now ≡ length replies.now }
    requires out_works { W.failed out.old ≡ false }
    ensures printed { OnOk result (HasPrinted format since world.now events.now replies.now (W.held out.old) (W.held out.new)) }
    ensures silent { IfErr result (λ e. (e ≡ StoreFault.Output → ⊥) → W.held out.new ≡ W.held out.old) }
{
    let report = render(alloc, format, &[], since, world, events, replies)?;
    write_all(out, &report)?;
    Ok(())
}

/// Writes the report of a scenario that was gone on with.
fn write_report<W: Sink>(
    alloc: Global,
    format: Format,
    gone: &Gone,
    scenario: &Scenario,
    out: &mut W,
) -> Result<(), StoreFault>
    requires replies { length scenario.now.events ≡ length gone.now.replies.items }
    requires out_works { W.failed out.old ≡ false }
    ensures printed { OnOk result (HasPrinted format gone.now.since gone.now.world scenario.now.events gone.now.replies.items (W.held out.old) (W.held out.new)) }
    ensures silent { IfErr result (λ e. (e ≡ StoreFault.Output → ⊥) → W.held out.new ≡ W.held out.old) }
{
    let events = scenario.events.as_slice();
    print_report(
        alloc,
        format,
        gone.since,
        &gone.world,
        events,
        gone.replies.as_slice(),
        out,
    )?;
    Ok(())
}

/// Goes on with the scenario that a text spells over the world of a file, which was opened with these bytes, and writes its report to a sink once it lasts.
///
/// At `Ok` the scenario lasts: from then on each crash leaves a file that opens to the world after it. At a refusal other than `Output` nothing was written,
/// and the file has the whole scenario or nothing of it. The file has to be opened again after each.
pub fn script_kept<D: Disk, W: Sink>(
    format: Format,
    records: &mut RecordFile<D>,
    bytes: Vec<u8>,
    text: &[u8],
    scenario: &Scenario,
    out: &mut W,
) -> Result<(), StoreFault>
    requires bytes { bytes.items ≡ D.seen records.old.disk }
    requires durable { Only (D.seen records.old.disk) (D.may_leave records.old.disk) }
    requires usable { IsTrue (D.is_usable records.old.disk) }
    requires spelled { scenario_in text.now ≡ OkOf scenario.now }
    requires opening { IsOpening scenario.now.opening }
    requires out_works { W.failed out.old ≡ false }
    ensures lasts { OnOk result (IsSettled D.is_usable D.seen D.may_leave records.new
        × HasGoneOn format (D.seen records.old.disk) (D.seen records.new.disk) scenario.now (W.held out.old) (W.held out.new)) }
    ensures silent { IfErr result (λ e. (e ≡ StoreFault.Output → ⊥) → W.held out.new ≡ W.held out.old) }

    // A crash at any moment leaves a file that opens to what it was found to open to, or to the world after the scenario.
    ensures any_moment { LeavesOnly D.moment D.left_since records.old.disk records.new.disk
        (LeavesFoundOrAfter (D.seen records.old.disk) text.now scenario.now) }
{
    let kept = opened(records, bytes)?;
    let gone = go_on_with(records, kept, text, scenario)?;
    write_report(records.alloc, format, &gone, scenario, out)?;
    Ok(())
}
