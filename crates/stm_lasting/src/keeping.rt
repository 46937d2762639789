//! Running a scenario, and making it last.
ghost use Rattle.std.specs.Prelude.{◌≡◌, ◌⊎◌, ◌<◌, ◌≤◌, ◌^◌, ◌++◌, ℕ, Ok as OkOf, length, IfOk, IfErr, OnOk, IsErrOf};
ghost use Rattle.stm_frames.specs.Frame.{frame};
ghost use Rattle.stm_records.specs.Disk.{LeavesOnly};
ghost use Rattle.stm_records.specs.RecordFiles.{IsSettled};
ghost use Rattle.stm_texts.specs.Reading.{scenario_in};
ghost use Rattle.stm_world.specs.World.{replies_to, world_after};
ghost use Rattle.stm_lasting.specs.Kept.{IsKept, IsReady, IsTooLong, LeadsTo, LeavesWhole, IsWorldBeforeOrAfter};

use crate::fault::KeepFault;
use stm_events::{Denied, Reply};
use stm_records::{Disk, DiskFault, RecordFile};
use stm_retry::{RunStop, World};
use stm_texts::Scenario;

/// Runs the scenario that a text spells over a world, and returns its replies. Nothing of it is kept yet: with the text as one more record, the file
/// leads to the world after it.
///
/// Out of memory is the only refusal: then the world is of no more use.
fn run<D: Disk>(
    records: &RecordFile<D>,
    world: &mut World,
    _text: &[u8],
    scenario: &Scenario,
) -> Result<Vec<Result<Reply, Denied>>, RunStop>
    requires spelled { scenario_in _text.now ≡ OkOf scenario.now }
    requires settled { IsSettled D.is_usable D.seen D.may_leave records.now }
    requires ready { IsReady (D.seen records.now.disk) world.old scenario.now }
    ensures replies { IfOk result (λ replies. replies.items ≡ replies_to scenario.now.events world.old) }
    ensures world { OnOk result (world.new ≡ world_after scenario.now.events world.old) }
    ensures leads { OnOk result (LeadsTo (D.seen records.now.disk) _text.now world.new) }
{
    let _end = records.end;
    let replies = world.run(scenario.events.as_slice())?;
    Ok(replies)
}

/// What a fault of the records is called here.
pub(crate) fn fault_of(fault: DiskFault) -> KeepFault
    ensures failed { result ≡ KeepFault.Failed → (fault ≡ DiskFault.Failed) ⊎ ((at : ℕ) × (fault ≡ DiskFault.Damaged at)) }
    ensures full { result ≡ KeepFault.Full → fault ≡ DiskFault.Full }
{
    match fault {
        DiskFault::OutOfMemory => KeepFault::OutOfMemory,
        DiskFault::Failed | DiskFault::Damaged(_) => KeepFault::Failed,
        DiskFault::Full => KeepFault::Full,
    }
}

/// Adds a record. The first one is a file of its own, which takes the name once it lasts.
fn add_record<D: Disk>(records: &mut RecordFile<D>, text: &[u8]) -> Result<(), DiskFault>
    requires { IsSettled D.is_usable D.seen D.may_leave records.old }

    ensures acknowledged { OnOk result (IsSettled D.is_usable D.seen D.may_leave records.new
        × (D.seen records.new.disk ≡ D.seen records.old.disk ++ frame (length (D.seen records.old.disk)) text.now)) }

    ensures any_moment { LeavesOnly D.moment D.left_since records.old.disk records.new.disk
        (LeavesWhole (D.seen records.old.disk) text.now) }

    ensures failed { IsErrOf result DiskFault.Failed → D.faults records.old.disk < D.faults records.new.disk }
    ensures full { IsErrOf result DiskFault.Full → (2 ^ 60 ≤ records.old.end) ⊎ (2 ^ 60 ≤ length text.now) }
    ensures undamaged { (at : ℕ) → IsErrOf result (DiskFault.Damaged at) → ⊥ }
{
    if records.end == 0 {
        records.checkpoint(text)
    } else {
        records.append(text)
    }
}

/// The length of a file.
fn length_of<D: Disk>(records: &RecordFile<D>) -> usize
    ensures { result ≡ records.now.end }
{
    records.end
}

/// Makes a world last, to which the file leads with this text as one more record.
fn keep<D: Disk>(records: &mut RecordFile<D>, world: &World, text: &[u8]) -> Result<(), KeepFault>
    requires settled { IsSettled D.is_usable D.seen D.may_leave records.old }
    requires leads { LeadsTo (D.seen records.old.disk) text.now world.now }

    ensures settled { OnOk result (IsSettled D.is_usable D.seen D.may_leave records.new) }
    // The file leads to the world now.
    ensures kept { OnOk result (IsKept (D.seen records.new.disk) world.now) }

    // A crash at any moment of the call leaves a file that opens to the world from before it, or to this one.
    ensures any_moment { LeavesOnly D.moment D.left_since records.old.disk records.new.disk
        (IsWorldBeforeOrAfter (D.seen records.old.disk) text.now world.now) }

    ensures failed { IfErr result (λ e. e ≡ KeepFault.Failed → D.faults records.old.disk < D.faults records.new.disk) }
    ensures full { IfErr result (λ e. e ≡ KeepFault.Full → IsTooLong (D.seen records.old.disk) text.now) }
{
    let _runners = world;
    let _length = length_of(records);
    match add_record(records, text) {
        Ok(()) => Ok(()),
        Err(fault) => Err(fault_of(fault)),
    }
}

/// Goes on with the scenario that a text spells: runs it over the world that the file leads to, makes it last, and returns its replies. The first scenario
/// of a file runs over the empty store that it opens with.
///
/// At `Ok` the scenario lasts: from then on each crash leaves a file that opens to the world after it. At `Err` the file has the whole text or nothing of
/// it, and has to be opened again. `Failed`: the disk failed. `Full`: the text or the file would be longer than 2^60 bytes. `OutOfMemory`.
pub fn go_on<D: Disk>(
    records: &mut RecordFile<D>,
    world: &mut World,
    text: &[u8],
    scenario: &Scenario,
) -> Result<Vec<Result<Reply, Denied>>, KeepFault>
    requires spelled { scenario_in text.now ≡ OkOf scenario.now }
    requires settled { IsSettled D.is_usable D.seen D.may_leave records.old }
    requires ready { IsReady (D.seen records.old.disk) world.old scenario.now }

    ensures settled { OnOk result (IsSettled D.is_usable D.seen D.may_leave records.new) }
    ensures kept { OnOk result (IsKept (D.seen records.new.disk) world.new) }
    ensures world { OnOk result (world.new ≡ world_after scenario.now.events world.old) }
    ensures replies { IfOk result (λ replies. replies.items ≡ replies_to scenario.now.events world.old) }

    // A crash at any moment of the call leaves a file that opens to the world from before it, or to the one after the scenario.
    ensures any_moment { LeavesOnly D.moment D.left_since records.old.disk records.new.disk
        (IsWorldBeforeOrAfter (D.seen records.old.disk) text.now (world_after scenario.now.events world.old)) }

    // It doesn't give up by itself.
    ensures failed { IfErr result (λ e. e ≡ KeepFault.Failed → D.faults records.old.disk < D.faults records.new.disk) }
    ensures full { IfErr result (λ e. e ≡ KeepFault.Full → IsTooLong (D.seen records.old.disk) text.now) }
{
    let Ok(replies) = run(records, world, text, scenario) else {
        return Err(KeepFault::OutOfMemory);
    };
    match keep(records, world, text) {
        Ok(()) => Ok(replies),
        Err(fault) => Err(fault),
    }
}
