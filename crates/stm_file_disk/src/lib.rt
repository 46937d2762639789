//! Disks of files, over the file system, and how one is opened.
//!
//! What such a disk's calls do to the file, and what a crash may leave of it, is `specs/Replay.antt`: that the operating system, the file system and the
//! disk do so is trusted, and so is that each method makes the call that it notes, of the file or, where that is only read, of a copy.
#![tactic(auto)]

mod call;
mod file_disk;
mod opening;

pub use file_disk::FileDisk;
pub use opening::{OpenError, Part, open, open_to_read};
