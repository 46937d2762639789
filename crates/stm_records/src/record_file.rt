//! Files of records, each of which lasts before it is acknowledged.
ghost use Rattle.std.specs.Prelude.{◌≡◌, ◌⊎◌, ◌<◌, ◌≤◌, ◌^◌, ◌++◌, ℕ, length, OnOk, IsErrOf};
ghost use Rattle.stm_frames.specs.Frame.{frame};
ghost use Rattle.stm_records.specs.Disk.{LeavesOnly};
ghost use Rattle.stm_records.specs.RecordFiles.{IsSettled, LeavesRecords};

use crate::disk::Disk;
use crate::fault::DiskFault;
use std::alloc::Global;
use stm_frames::frame_of;

/// No record, and no file, is longer than this many bytes.
const MOST_BYTES: usize = 1 << 60;

/// A file of records, open at its end. Each record stands in a frame of its own.
#[derive(Drop)]
pub struct RecordFile<D: Disk> {
    /// Where the bytes of a record's frame are made.
    pub alloc: Global,
    /// The disk that has the file.
    pub disk: D,
    /// The length of the file.
    pub end: usize,
}

impl<D: Disk> RecordFile<D> {
    /// Adds a record. At `Ok` it is acknowledged: from then on each crash leaves a file that has it.
    ///
    /// At `Err` the file may have it or not, also after a crash: this value is of no more use, and the file has to be opened again. `Failed`: the disk
    /// failed. `Full`: the record or the file would be longer than 2^60 bytes; nothing was written. `OutOfMemory`: an allocation failed, maybe behind the write.
    pub fn append(&mut self, payload: &[u8]) -> Result<(), DiskFault>
        requires { IsSettled D.is_usable D.seen D.may_leave self.old }

        ensures acknowledged { OnOk result (IsSettled D.is_usable D.seen D.may_leave self.new
            × (D.seen self.new.disk ≡ D.seen self.old.disk ++ frame (length (D.seen self.old.disk)) payload.now)) }

        // A crash at any moment of the call leaves the records from before it, with the new one or without. A first record alone may be torn: `checkpoint`
        // makes one that is not.
        ensures any_moment { LeavesOnly D.moment D.left_since self.old.disk self.new.disk
            (LeavesRecords (D.seen self.old.disk) payload.now) }

        // It doesn't give up by itself.
        ensures failed { IsErrOf result DiskFault.Failed → D.faults self.old.disk < D.faults self.new.disk }
        ensures full { IsErrOf result DiskFault.Full → (2 ^ 60 ≤ self.old.end) ⊎ (2 ^ 60 ≤ length payload.now) }
        ensures undamaged { (at : ℕ) → IsErrOf result (DiskFault.Damaged at) → ⊥ }
    {
        if self.end >= MOST_BYTES || payload.len() >= MOST_BYTES {
            return Err(DiskFault::Full);
        }
        let bytes = frame_of(self.alloc, self.end, payload)?;
        self.disk.write_at(self.end, &bytes)?;
        self.disk.sync()?; // from here on it lasts
        self.end += bytes.len();
        Ok(())
    }

    /// Puts a file with this one record in the place of all there is: it is made under another name, made to last, and takes the name.
    ///
    /// At `Err` the name has the old file or the new one: this value is of no more use, and the file has to be opened again. The causes are those of
    /// `append`.
    pub fn checkpoint(&mut self, payload: &[u8]) -> Result<(), DiskFault>
        requires { IsSettled D.is_usable D.seen D.may_leave self.old }

        ensures acknowledged { OnOk result (IsSettled D.is_usable D.seen D.may_leave self.new
            × (D.seen self.new.disk ≡ frame 0 payload.now)) }

        // A crash at any moment of the call leaves the old file or the new one.
        ensures any_moment { LeavesOnly D.moment D.left_since self.old.disk self.new.disk
            (λ c. (c ≡ D.seen self.old.disk) ⊎ (c ≡ frame 0 payload.now)) }

        ensures failed { IsErrOf result DiskFault.Failed → D.faults self.old.disk < D.faults self.new.disk }
        ensures full { IsErrOf result DiskFault.Full → 2 ^ 60 ≤ length payload.now }
        ensures undamaged { (at : ℕ) → IsErrOf result (DiskFault.Damaged at) → ⊥ }
    {
        if payload.len() >= MOST_BYTES {
            return Err(DiskFault::Full);
        }
        let bytes = frame_of(self.alloc, 0, payload)?;
        self.disk.write_next(&bytes)?;
        self.disk.sync_next()?;
        self.disk.rename()?; // the old file or the new one
        self.disk.sync()?; // its name lasts too
        self.end = bytes.len();
        Ok(())
    }
}
