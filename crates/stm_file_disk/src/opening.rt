//! Opening the file of a disk.
ghost use Rattle.std.specs.Prelude.{◌≡◌, ◌∷◌, [], true, List, ℕ, IfOk, IsTrue};
ghost use Rattle.stm_file_disk.specs.Event.{events_of};
ghost use Rattle.stm_file_disk.specs.Replay.{replay};

use crate::call::{Act, Call};
use crate::file_disk::{FileDisk, WrittenFiles};
use std::alloc::{AllocError, Global};
use std::fmt;
use std::fs::{self, File, OpenOptions, TryLockError};
use std::io::{self, Read, Write};
use stm_frames::payload_at;

/// What an opening asks the system about.
#[derive(Clone, Copy, Debug, PartialEq, Eq)]
pub enum Part {
    /// The file itself.
    File,
    /// The copy that takes its name.
    Next,
    /// Its lock.
    Lock,
    /// The folder that these lie in.
    Folder,
}

/// Why a file could not be opened. `Display` says it of the part that `OpenError::name` names.
#[derive(Clone, Copy, Debug)]
pub enum OpenError {
    /// The system refused a call about this part, for this reason.
    Io(Part, io::Error),
    /// The system refused to make this part or to write it, for this reason. The file has the bytes that it had.
    Unwritten(Part, io::Error),
    /// There is something else than a regular file, as a device or a pipe, or a link in the place of the copy. It was not opened.
    NoFile(Part),
    /// The file has bytes, and does not begin with a record. It is as it was, and no lock was made beside it.
    NoRecords,
    /// An allocation failed.
    OutOfMemory,
    /// Another process has it open.
    Busy,
}

impl OpenError {
    /// The name of what was refused where a file of this path was opened: a beginning, and what follows it.
    pub fn name<'a>(&self, path: &'a str) -> (&'a str, &'static str) {
        match self {
            OpenError::Io(part, _) | OpenError::Unwritten(part, _) | OpenError::NoFile(part) => {
                match part {
                    Part::File => (path, ""),
                    Part::Next => (path, ".next"),
                    Part::Lock => (path, ".lock"),
                    Part::Folder => (folder_of(path), ""),
                }
            }
            OpenError::NoRecords | OpenError::OutOfMemory | OpenError::Busy => (path, ""),
        }
    }
}

impl From<AllocError> for OpenError {
    fn from(_error: AllocError) -> OpenError {
        OpenError::OutOfMemory
    }
}

impl fmt::Display for OpenError {
    fn fmt<W: fmt::Write>(&self, f: &mut fmt::Formatter<W>) -> fmt::Result {
        match self {
            OpenError::Io(_, error) => write!(f, "{error}"),
            OpenError::Unwritten(_, error) => {
                write!(f, "cannot be written, nothing was changed: {error}")
            }
            OpenError::NoFile(_) => f.write_str("not a regular file"),
            OpenError::NoRecords => f.write_str("damaged at byte 0: nothing was changed"),
            OpenError::OutOfMemory => f.write_str("out of memory"),
            OpenError::Busy => f.write_str("another process has it open"),
        }
    }
}

impl std::error::Error for OpenError {}

/// What the system says of a folder in the place of a file.
const IS_A_DIRECTORY: i32 = 21;

/// How each file is opened that is written: it is made where it is missing.
fn options() -> OpenOptions {
    let mut options = OpenOptions::new();
    options.read(true).write(true).create(true);
    options
}

/// The folder that the file of a path lies in.
fn folder_of(path: &str) -> &str {
    match path.rfind('/') {
        None => ".",
        Some(0) => "/",
        Some(at) => &path[..at],
    }
}

/// The answer to a call that makes a part or writes it.
fn written<T: Drop>(part: Part, answer: io::Result<T>) -> Result<T, OpenError> {
    match answer {
        Ok(done) => Ok(done),
        Err(error) => Err(OpenError::Unwritten(part, error)),
    }
}

/// The answer to a call that reads a part.
fn read<T: Drop>(part: Part, answer: io::Result<T>) -> Result<T, OpenError> {
    match answer {
        Ok(done) => Ok(done),
        Err(error) => Err(OpenError::Io(part, error)),
    }
}

/// Whether a part is there, at this path. What is no regular file is refused before it is opened: a device would be written to, or read without an end, and
/// a pipe be waited for. A link stands for what it leads to, but for one in the place of the copy, which would take the file's name.
fn is_there(rt: &HostRuntime, path: &str, part: Part) -> Result<bool, OpenError> {
    let found = match part {
        Part::Next => fs::symlink_metadata(rt, path),
        _ => fs::metadata(rt, path),
    };
    match found {
        Ok(found) if found.is_file() => Ok(true),
        Ok(found) if found.is_dir() => {
            let error = io::Error::from_raw_os_error(IS_A_DIRECTORY);
            Err(OpenError::Io(part, error))
        }
        Ok(_) => Err(OpenError::NoFile(part)),
        Err(error) if error.kind() == io::ErrorKind::NotFound && !path.is_empty() => Ok(false),
        Err(error) => Err(OpenError::Io(part, error)),
    }
}

/// A lock, once it was taken.
fn taken(lock: File, answer: Result<(), TryLockError>) -> Result<File, OpenError> {
    match answer {
        Ok(()) => Ok(lock),
        Err(TryLockError::WouldBlock) => Err(OpenError::Busy),
        Err(TryLockError::Error(error)) => Err(OpenError::Io(Part::Lock, error)),
    }
}

/// Takes the lock of a file, which is a file at this path that is never renamed, and is made where it is missing. It is let go when the process ends, however
/// that comes.
fn lock(rt: &HostRuntime, lock_path: &str) -> Result<File, OpenError> {
    let lock = written(Part::Lock, options().open(rt, lock_path))?;
    let answer = lock.try_lock();
    taken(lock, answer)
}

/// Takes the lock at this path together with others who read, where it is there. It is not made: only who writes a file makes its lock.
fn lock_to_read(rt: &HostRuntime, lock_path: &str) -> Result<Option<File>, OpenError> {
    if !is_there(rt, lock_path, Part::Lock)? {
        return Ok(None);
    }
    let lock = read(Part::Lock, File::open(rt, lock_path))?;
    let answer = lock.try_lock_shared();
    let lock = taken(lock, answer)?;
    Ok(Some(lock))
}

/// What is in an open file.
fn bytes_of(alloc: Global, file: &mut File) -> Result<Vec<u8>, OpenError> {
    let mut bytes = Vec::new(alloc);
    read(Part::File, file.read_to_end(&mut bytes))?;
    Ok(bytes)
}

/// What is in the file of a path, while nobody writes it. Its lock is let go then.
fn read_whole(rt: &HostRuntime, path: &str, lock_path: &str) -> Result<Vec<u8>, OpenError> {
    is_there(rt, path, Part::File)?;
    let lock = lock_to_read(rt, lock_path)?;
    let mut file = read(Part::File, File::open(rt, path))?;
    let bytes = bytes_of(rt.alloc(), &mut file)?;
    // Where there was no lock nobody had opened the file to write, and has not yet if there is none now.
    if lock.is_none() && is_there(rt, lock_path, Part::Lock)? {
        return Err(OpenError::Busy);
    }
    Ok(bytes)
}

/// Refuses a file that has bytes and no records, where there is no lock yet, so that none is left beside what is no store.
fn refuse_no_records(rt: &HostRuntime, path: &str, lock_path: &str) -> Result<(), OpenError> {
    if is_there(rt, lock_path, Part::Lock)? || !is_there(rt, path, Part::File)? {
        return Ok(());
    }
    let bytes = read_whole(rt, path, lock_path)?;
    if !bytes.is_empty() && payload_at(0, &bytes).is_none() {
        return Err(OpenError::NoRecords);
    }
    Ok(())
}

/// Refuses a path at which there is something that can't be written, or is no regular file, before a lock is made beside it.
fn refuse_unwritable(rt: &HostRuntime, path: &str, next_path: &str) -> Result<(), OpenError> {
    if is_there(rt, path, Part::File)? {
        let mut there = OpenOptions::new();
        there.read(true).write(true);
        written(Part::File, there.open(rt, path))?;
    }
    is_there(rt, next_path, Part::Next)?;
    Ok(())
}

/// Gives the name of a file to a copy of it with these bytes, which then are on the disk. A copy that could not be made is removed: the disk may be full.
///
/// Where a sync has failed, in an earlier process, the system may take the pages for written that are not, and would not write them at another sync.
fn write_again(
    rt: &HostRuntime,
    old: &File,
    next_path: &str,
    path: &str,
    bytes: &[u8],
) -> Result<File, OpenError> {
    match copied(rt, old, next_path, path, bytes) {
        Ok(file) => Ok(file),
        Err(error) => {
            let _ = fs::remove_file(rt, next_path);
            Err(OpenError::Unwritten(Part::Next, error))
        }
    }
}

/// Gives the name of a file to a copy of it with these bytes, which was made at another path and is on the disk.
fn copied(
    rt: &HostRuntime,
    old: &File,
    next_path: &str,
    path: &str,
    bytes: &[u8],
) -> io::Result<File> {
    let mut file = options().truncate(true).open(rt, next_path)?;
    file.set_permissions(old.metadata()?.permissions())?;
    file.write_all(bytes)?;
    file.sync_all()?;
    fs::rename(rt, next_path, path)?;
    Ok(file)
}

/// The folder of a path, open, whose names are on the disk.
fn synced_folder(rt: &HostRuntime, path: &str) -> io::Result<File> {
    let folder = File::open(rt, folder_of(path))?;
    folder.sync_all()?;
    Ok(folder)
}

/// Opens the files of a path to write them, and makes those that are missing, with what is in the file itself.
fn open_files(rt: &HostRuntime, path: &str) -> Result<(WrittenFiles, Vec<u8>), OpenError> {
    let alloc = rt.alloc();
    let lock_path = format!(in alloc; "{path}.lock")?;
    let next_path = format!(in alloc; "{path}.next")?;
    refuse_unwritable(rt, path, next_path.as_str())?;
    refuse_no_records(rt, path, lock_path.as_str())?;
    let lock = lock(rt, lock_path.as_str())?;
    let mut old = written(Part::File, options().open(rt, path))?;
    let bytes = bytes_of(alloc, &mut old)?;
    let file = write_again(rt, &old, next_path.as_str(), path, &bytes)?;
    let folder = written(Part::Folder, synced_folder(rt, path))?;
    let files = WrittenFiles {
        path: format!(in alloc; "{path}")?,
        next_path,
        file,
        next: None,
        folder,
        is_name_new: false,
        lock,
    };
    Ok((files, bytes))
}

/// The calls of a disk that was opened with these bytes.
fn first_call(alloc: Global, bytes: &[u8]) -> Result<Vec<Call>, AllocError>
    ensures { IfOk result (λ calls. events_of calls.items ≡ (Act.Opened, 0, true, bytes.now) ∷ []) }
{
    let mut copy = Vec::new(alloc);
    copy.extend_from_slice(bytes)?;
    let mut calls = Vec::new(alloc);
    calls.push(Call {
        act: Act::Opened,
        at: 0,
        is_done: true,
        bytes: copy,
    })?;
    Ok(calls)
}

/// The file of a path, made where it is missing, with what is in it. It is written again, beside it and then under its name.
///
/// `Busy`: another process has it open, to write or to read it just now. The lock is advisory: it holds against those who open the file by these functions.
/// `NoFile`, `NoRecords`: what is there is no store, and as it was. `Unwritten`: the file has the bytes that it had.
pub fn open(rt: &HostRuntime, path: &str) -> Result<(FileDisk, Vec<u8>), OpenError>
    ensures bytes { IfOk result (λ opened. (replay (events_of opened.0.calls.items)).seen ≡ opened.1.items) }
    ensures usable { IfOk result (λ opened. IsTrue (replay (events_of opened.0.calls.items)).is_usable) }
    ensures durable { IfOk result (λ opened. (c : List ℕ) → (replay (events_of opened.0.calls.items)).may c → c ≡ opened.1.items) }
{
    let (files, bytes) = open_files(rt, path)?;
    let disk = FileDisk {
        rt: rt.clone()?,
        files: Some(files),
        calls: first_call(rt.alloc(), &bytes)?,
        failure: None,
    };
    Ok((disk, bytes))
}

/// A copy of the file of a path, which has to be there, with what is in it. What is asked of this disk changes the copy alone, and never the file. Nothing
/// is made beside it, and it may be read by several at once.
///
/// `Busy`: another process has it open to write. `NoFile`: what is there is no regular file.
pub fn open_to_read(rt: &HostRuntime, path: &str) -> Result<(FileDisk, Vec<u8>), OpenError>
    ensures bytes { IfOk result (λ opened. (replay (events_of opened.0.calls.items)).seen ≡ opened.1.items) }
    ensures usable { IfOk result (λ opened. IsTrue (replay (events_of opened.0.calls.items)).is_usable) }
    ensures durable { IfOk result (λ opened. (c : List ℕ) → (replay (events_of opened.0.calls.items)).may c → c ≡ opened.1.items) }
{
    let lock_path = format!(in rt.alloc(); "{path}.lock")?;
    let bytes = read_whole(rt, path, lock_path.as_str())?;
    let disk = FileDisk {
        rt: rt.clone()?,
        files: None,
        calls: first_call(rt.alloc(), &bytes)?,
        failure: None,
    };
    Ok((disk, bytes))
}
