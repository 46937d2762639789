//! A disk over the file system: each method makes its calls of the system, and then notes what they answered.
ghost use Rattle.std.specs.Prelude.{◌≡◌, ◌<◌, true, false, ◌∷◌, length, vec_len, vec_capacity, IsOk, IsErr, IfOk};
ghost use Rattle.stm_file_disk.specs.Event.{events_of};
ghost use Rattle.stm_file_disk.specs.Replay.{replay, LeftSince};
ghost use Rattle.stm_file_disk.specs.Moments.{counts, only};

use crate::call::{Act, Call};
use std::alloc::AllocError;
use std::fs::{self, File, OpenOptions};
use std::io::{self, Write};
use std::os::unix::fs::FileExt;
use stm_records::{Disk, DiskFault};

/// A file under a name, and a next one beside it, in a folder of the file system.
///
/// It keeps what it has asked of the system since it was opened: what the file holds, and what a crash may leave of it, is read off these calls. So it
/// keeps a copy of the bytes that were read when it was opened, and of those that were written since.
///
/// One that was opened to be read (`open_to_read`) asks nothing of the system: it is a copy of the file, in which its calls are made by noting them.
#[derive(Drop)]
pub struct FileDisk {
    pub(crate) rt: HostRuntime,
    /// None in a copy.
    pub(crate) files: Option<WrittenFiles>,
    pub(crate) calls: Vec<Call>,
    pub(crate) failure: Option<io::Error>,
}

/// The files that a disk writes.
#[derive(Drop)]
pub(crate) struct WrittenFiles {
    pub(crate) path: String,
    pub(crate) next_path: String,
    pub(crate) file: File,
    pub(crate) next: Option<File>,
    pub(crate) folder: File,
    pub(crate) is_name_new: bool,
    pub(crate) lock: File,
}

impl FileDisk {
    /// Why the system refused the last call that failed, where one has.
    pub fn failure(&self) -> Option<io::Error> {
        self.failure
    }

    /// The length to which the file was cut when its records were looked for, and how many bytes stood behind it, where it was.
    pub fn torn(&self) -> Option<(usize, usize)> {
        let opened = self.calls.first()?;
        let next = self.calls.get(1)?;
        if next.act == Act::Cut && next.is_done {
            Some((next.at, opened.bytes.len().saturating_sub(next.at)))
        } else {
            None
        }
    }

    /// Writes bytes of the file.
    fn write_file(&self, at: usize, bytes: &[u8]) -> io::Result<()> {
        let Some(files) = &self.files else {
            return Ok(());
        };
        files.file.write_all_at(bytes, at as u64)
    }

    /// Cuts the file.
    fn cut_file(&self, len: usize) -> io::Result<()> {
        let Some(files) = &self.files else {
            return Ok(());
        };
        files.file.set_len(len as u64)
    }

    /// Syncs the file, and its folder where its name is new.
    fn sync_all(&mut self) -> io::Result<()>
        ensures { self.new.calls ≡ self.old.calls }
    {
        let Some(files) = &mut self.files else {
            return Ok(());
        };
        files.file.sync_data()?;
        if files.is_name_new {
            files.folder.sync_all()?;
            files.is_name_new = false;
        }
        Ok(())
    }

    /// Removes the next file where it could not be made, or given the name: the disk may be full. A disk is not usable behind a call that failed, and its
    /// next opening makes that file anew.
    fn remove_failed(&self, answer: &io::Result<()>) {
        if let (Some(files), Err(_)) = (&self.files, answer) {
            let _ = fs::remove_file(&self.rt, files.next_path.as_str());
        }
    }

    /// Makes the next file, with these bytes.
    fn make_next(&mut self, bytes: &[u8]) -> io::Result<()>
        ensures { self.new.calls ≡ self.old.calls }
    {
        let Some(files) = &mut self.files else {
            return Ok(());
        };
        let mut next = OpenOptions::new()
            .read(true)
            .write(true)
            .create(true)
            .truncate(true)
            .open(&self.rt, files.next_path.as_str())?;
        next.write_all(bytes)?;
        files.next = Some(next);
        Ok(())
    }

    /// Syncs the next file.
    fn sync_made(&self) -> io::Result<()> {
        let Some(files) = &self.files else {
            return Ok(());
        };
        match &files.next {
            Some(next) => next.sync_all(),
            None => Err(io::ErrorKind::NotFound.into()),
        }
    }

    /// Gives the next file the name.
    fn take_name(&mut self) -> io::Result<()>
        ensures { self.new.calls ≡ self.old.calls }
    {
        let Some(files) = &mut self.files else {
            return Ok(());
        };
        let Some(next) = files.next.take() else {
            return Err(io::ErrorKind::NotFound.into());
        };
        fs::rename(&self.rt, files.next_path.as_str(), files.path.as_str())?;
        files.file = next;
        files.is_name_new = true;
        Ok(())
    }

    /// Makes room for one more call, and copies the bytes that are to be kept with it.
    fn prepare(&mut self, bytes: &[u8]) -> Result<Vec<u8>, AllocError>
        ensures copy { IfOk result (λ copy. copy.items ≡ bytes.now) }
        ensures room { IsOk result → vec_len self.new.calls < vec_capacity self.new.calls }
        ensures same { self.new.calls.items ≡ self.old.calls.items }
    {
        self.calls.reserve(1)?;
        let mut copy = Vec::new(self.rt.alloc());
        copy.extend_from_slice(bytes)?;
        Ok(copy)
    }

    /// Keeps a call with its answer, which becomes the fault.
    #[tactic(auto, using(crate::proofs::Calls::newest))]
    fn note(
        &mut self,
        act: Act,
        at: usize,
        bytes: Vec<u8>,
        answer: io::Result<()>,
    ) -> Result<(), DiskFault>
        requires { vec_len self.old.calls < vec_capacity self.old.calls }
        ensures ok { IsOk result → events_of self.new.calls.items ≡ (act, at, true, bytes.items) ∷ events_of self.old.calls.items }
        ensures err { IsErr result
            → (events_of self.new.calls.items ≡ (act, at, false, bytes.items) ∷ events_of self.old.calls.items) × (result ≡ Err DiskFault.Failed) }
    {
        let is_done = answer.is_ok();
        self.calls.push_reserved(Call {
            act,
            at,
            is_done,
            bytes,
        });
        match answer {
            Ok(()) => Ok(()),
            Err(error) => {
                self.failure = Some(error);
                Err(DiskFault::Failed)
            }
        }
    }
}

impl Disk for FileDisk {
    ghost seen = { λ f. (replay (events_of f.calls.items)).seen };

    ghost is_usable = { λ f. (replay (events_of f.calls.items)).is_usable };

    ghost may_leave = { λ f. (replay (events_of f.calls.items)).may };

    ghost moment = { λ f. length (events_of f.calls.items) };

    ghost left_since = { λ f. LeftSince (events_of f.calls.items) };

    ghost faults = { λ f. (replay (events_of f.calls.items)).faults };

    ghost next = { λ f. (replay (events_of f.calls.items)).next };

    ghost next_may = { λ f. (replay (events_of f.calls.items)).next_may };

    ghost counts_now = { λ f t c le now. counts (events_of f.calls.items) t c now };

    ghost only_now = { λ f c left. only (events_of f.calls.items) c left };

    #[tactic(auto, using(crate::proofs::Calls::no_time, crate::proofs::Calls::no_write, crate::proofs::Calls::no_fault))]
    fn write_at(&mut self, at: usize, bytes: &[u8]) -> Result<(), DiskFault> {
        let copy = self.prepare(bytes)?;
        let answer = self.write_file(at, bytes);
        self.note(Act::Wrote, at, copy, answer)
    }

    #[tactic(auto, using(crate::proofs::Calls::no_time, crate::proofs::Calls::no_cut, crate::proofs::Calls::no_fault))]
    fn cut(&mut self, len: usize) -> Result<(), DiskFault> {
        let none = self.prepare(&[])?;
        let answer = self.cut_file(len);
        self.note(Act::Cut, len, none, answer)
    }

    #[tactic(auto, using(crate::proofs::Calls::no_time, crate::proofs::Calls::no_crash, crate::proofs::Calls::no_fault))]
    fn sync(&mut self) -> Result<(), DiskFault> {
        let none = self.prepare(&[])?;
        let answer = self.sync_all();
        self.note(Act::Synced, 0, none, answer)
    }

    #[tactic(auto, using(crate::proofs::Calls::no_time, crate::proofs::Calls::no_crash, crate::proofs::Calls::no_fault))]
    fn write_next(&mut self, bytes: &[u8]) -> Result<(), DiskFault> {
        let copy = self.prepare(bytes)?;
        let answer = self.make_next(bytes);
        self.remove_failed(&answer);
        self.note(Act::WroteNext, 0, copy, answer)
    }

    #[tactic(auto, using(crate::proofs::Calls::no_time, crate::proofs::Calls::no_crash, crate::proofs::Calls::no_fault))]
    fn sync_next(&mut self) -> Result<(), DiskFault> {
        let none = self.prepare(&[])?;
        let answer = self.sync_made();
        self.remove_failed(&answer);
        self.note(Act::SyncedNext, 0, none, answer)
    }

    #[tactic(auto, using(crate::proofs::Calls::no_time, crate::proofs::Calls::no_rename, crate::proofs::Calls::no_fault))]
    fn rename(&mut self) -> Result<(), DiskFault> {
        let none = self.prepare(&[])?;
        let answer = self.take_name();
        self.remove_failed(&answer);
        self.note(Act::Renamed, 0, none, answer)
    }
}
