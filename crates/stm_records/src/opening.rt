//! Opening a file of records, also one that a crash has left.
ghost use Rattle.std.specs.Prelude.{◌≡◌, ◌<◌, ◌≤◌, ℕ, [], length, IfOk, IfErr, OnOk, IsErrOf, IsTrue, IsFalse};
ghost use Rattle.stm_frames.specs.Frame.{log, NoFrame, Opens, IsDamaged};
ghost use Rattle.stm_records.specs.Disk.{Only, LeavesOnly};
ghost use Rattle.stm_records.specs.Head.{IsHurt, BeginsWhole};
ghost use Rattle.stm_records.specs.RecordFiles.{OpensAlike, payloads_of};

use crate::disk::Disk;
use crate::fault::DiskFault;
use std::alloc::Global;
use stm_frames::{has_frame, payload_at, read_frames};

/// What a file of records holds.
#[derive(Drop)]
pub struct Opened {
    /// The bytes of the file.
    pub bytes: Vec<u8>,
    /// Where its records stand in them, each a start and a length.
    pub places: Vec<(usize, usize)>,
    /// The length of the file, once a torn end is cut off.
    pub end: usize,
}

/// Finds the records of a file that a crash may have left, and cuts off a torn end: what stands behind the last whole record, where no record begins in
/// it. The bytes are those that the disk was opened with.
fn recover<D: Disk>(alloc: Global, disk: &mut D, bytes: Vec<u8>) -> Result<Opened, DiskFault>
    requires bytes { bytes.items ≡ D.seen disk.old }
    requires head { BeginsWhole (D.seen disk.old) }
    // After a restart, what is read is what is on the disk.
    requires durable { Only (D.seen disk.old) (D.may_leave disk.old) }

    requires usable { IsTrue (D.is_usable disk.old) }

    ensures usable { OnOk result (IsTrue (D.is_usable disk.new)) }
    ensures opens { IfOk result (λ opened. Opens (D.seen disk.old) (payloads_of opened)) }
    ensures kept { IfOk result (λ opened. D.seen disk.new ≡ log 0 (payloads_of opened)) }
    ensures end { IfOk result (λ opened. opened.end ≡ length (D.seen disk.new)) }
    ensures durable { OnOk result (Only (D.seen disk.new) (D.may_leave disk.new)) }

    // Damage is told by its place, and the file is left as it is.
    ensures damaged { IfErr result (λ e. (at : ℕ) → e ≡ DiskFault.Damaged at → IsDamaged (D.seen disk.old) at
        × LeavesOnly D.moment D.left_since disk.old disk.new (λ c. c ≡ D.seen disk.old)) }

    // A crash at any moment leaves a file that opens to the same records: the file itself, where that is not opened.
    ensures any_moment { LeavesOnly D.moment D.left_since disk.old disk.new (OpensAlike (D.seen disk.old)) }

    ensures later { D.faults disk.old ≤ D.faults disk.new }
    ensures failed { IsErrOf result DiskFault.Failed → D.faults disk.old < D.faults disk.new }
    ensures full { IsErrOf result DiskFault.Full → ⊥ }
{
    let found = read_frames(alloc, &bytes)?;
    let end = found.end;
    if has_frame(&bytes, end) {
        return Err(DiskFault::Damaged(end));
    }
    if end == bytes.len() {
        return Ok(Opened {
            bytes,
            places: found.payloads,
            end,
        });
    }
    disk.cut(end)?;
    disk.sync()?;
    Ok(Opened {
        bytes,
        places: found.payloads,
        end,
    })
}

/// Whether a file has bytes, and does not begin with a whole record.
fn is_headless(bytes: &[u8]) -> bool
    ensures some { IsTrue result → bytes.now ≡ [] → ⊥ }
    ensures hurt { IsTrue result → NoFrame 0 bytes.now }
    ensures whole { IsFalse result → BeginsWhole bytes.now }
{
    if bytes.is_empty() {
        return false;
    }
    payload_at(0, bytes).is_none()
}

/// Opens a file whose first record was made by `checkpoint`, so that it lasted before the file had its name: finds its records, and cuts off a torn end,
/// which a crash in `append` leaves. A file with no bytes has no records. The bytes are those that the disk was opened with.
///
/// `Damaged`: no record begins at this offset, although one begins further on, or the first record is not whole. Then nothing is changed. `Failed`: the
/// disk failed at the repair. After each refusal the file can be opened again, also where the repair was cut short by a crash.
pub fn open<D: Disk>(alloc: Global, disk: &mut D, bytes: Vec<u8>) -> Result<Opened, DiskFault>
    requires bytes { bytes.items ≡ D.seen disk.old }
    // After a restart, what is read is what is on the disk.
    requires durable { Only (D.seen disk.old) (D.may_leave disk.old) }

    requires usable { IsTrue (D.is_usable disk.old) }

    ensures usable { OnOk result (IsTrue (D.is_usable disk.new)) }
    ensures opens { IfOk result (λ opened. Opens (D.seen disk.old) (payloads_of opened)) }
    ensures kept { IfOk result (λ opened. D.seen disk.new ≡ log 0 (payloads_of opened)) }
    ensures end { IfOk result (λ opened. opened.end ≡ length (D.seen disk.new)) }
    ensures durable { OnOk result (Only (D.seen disk.new) (D.may_leave disk.new)) }

    // Only a file that begins with a whole record, or has no bytes, is opened, and may be cut.
    ensures head { OnOk result (BeginsWhole (D.seen disk.old)) }

    ensures hurt { IfErr result (λ e. (at : ℕ) → e ≡ DiskFault.Damaged at → IsHurt (D.seen disk.old) at
        × LeavesOnly D.moment D.left_since disk.old disk.new (λ c. c ≡ D.seen disk.old)) }

    // A crash at any moment leaves a file that opens to the same records: the file itself, where that is not opened.
    ensures any_moment { LeavesOnly D.moment D.left_since disk.old disk.new (OpensAlike (D.seen disk.old)) }

    ensures later { D.faults disk.old ≤ D.faults disk.new }
    ensures failed { IsErrOf result DiskFault.Failed → D.faults disk.old < D.faults disk.new }
    ensures full { IsErrOf result DiskFault.Full → ⊥ }
{
    if is_headless(&bytes) {
        return Err(DiskFault::Damaged(0));
    }
    match recover(alloc, disk, bytes) {
        Ok(opened) => Ok(opened),
        Err(fault) => Err(fault),
    }
}
