//! What the world of a file has, and whether the file is whole.
ghost use Rattle.std.specs.Prelude.{◌≡◌, ℕ, length, IfOk, IfErr, OnOk, IsTrue, false};
ghost use Rattle.stm_records.specs.Disk.{Only, LeavesOnly};
ghost use Rattle.stm_records.specs.Head.{IsHurt};
ghost use Rattle.stm_records.specs.RecordFiles.{OpensAlike};
ghost use Rattle.stm_lasting.specs.Kept.{LeadsNowhere, HasRecords};
ghost use Rattle.stm_storing.specs.Storing.{HasShown, OpensToAny};

use crate::fault::StoreFault;
use crate::scripting::{opened, print_report};
use stm_devices::Sink;
use stm_lasting::{Disk, RecordFile};
use stm_report::{Format, revision_of};

/// What a check of a file found.
#[derive(Clone, Copy, Debug, PartialEq, Eq)]
pub struct Checked {
    /// How many records it has.
    pub records: usize,
    /// How long it is, once a torn end is cut off.
    pub bytes: usize,
}

/// Writes the keys that are present, the live leases and the revision of the world of a file, which was opened with these bytes, as the last lines of a
/// report, in a format.
///
/// At a refusal other than `Output` nothing was written. After each the file opens to what it would have.
pub fn show_kept<D: Disk, W: Sink>(
    format: Format,
    records: &mut RecordFile<D>,
    bytes: Vec<u8>,
    out: &mut W,
) -> Result<(), StoreFault>
    requires bytes { bytes.items ≡ D.seen records.old.disk }
    requires durable { Only (D.seen records.old.disk) (D.may_leave records.old.disk) }
    requires usable { IsTrue (D.is_usable records.old.disk) }
    requires out_works { W.failed out.old ≡ false }
    ensures shown { OnOk result (HasShown format (D.seen records.old.disk) (W.held out.old) (W.held out.new)) }
    ensures silent { IfErr result (λ e. (e ≡ StoreFault.Output → ⊥) → W.held out.new ≡ W.held out.old) }
    ensures any_moment { LeavesOnly D.moment D.left_since records.old.disk records.new.disk (OpensAlike (D.seen records.old.disk)) }
{
    let kept = opened(records, bytes)?;
    let since = revision_of(&kept.world);
    print_report(records.alloc, format, since, &kept.world, &[], &[], out)?;
    Ok(())
}

/// Reads all of a file, which was opened with these bytes, and says how many records it has, where it is whole but for a torn end, which is cut off.
///
/// `Damaged`: the record at this offset is not as it was written; then nothing was changed. `NoScenario`: the one at this offset spells no scenario.
pub fn check_kept<D: Disk>(
    records: &mut RecordFile<D>,
    bytes: Vec<u8>,
) -> Result<Checked, StoreFault>
    requires bytes { bytes.items ≡ D.seen records.old.disk }
    requires durable { Only (D.seen records.old.disk) (D.may_leave records.old.disk) }
    requires usable { IsTrue (D.is_usable records.old.disk) }
    ensures whole { OnOk result (OpensToAny (D.seen records.old.disk)) }
    ensures end { IfOk result (λ checked. checked.bytes ≡ length (D.seen records.new.disk)) }
    ensures count { IfOk result (λ checked. HasRecords (D.seen records.new.disk) checked.records) }
    ensures hurt { IfErr result (λ e. (at : ℕ) → e ≡ StoreFault.Damaged at → IsHurt (D.seen records.old.disk) at
        × LeavesOnly D.moment D.left_since records.old.disk records.new.disk (λ c. c ≡ D.seen records.old.disk)) }
    ensures nowhere { IfErr result (λ e. (at : ℕ) → e ≡ StoreFault.NoScenario at → LeadsNowhere (D.seen records.old.disk)) }
    ensures any_moment { LeavesOnly D.moment D.left_since records.old.disk records.new.disk (OpensAlike (D.seen records.old.disk)) }
{
    let kept = opened(records, bytes)?;
    Ok(Checked {
        records: kept.count,
        bytes: kept.end,
    })
}
