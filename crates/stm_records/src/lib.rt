//! Files of records on a disk that may fail, under crashes at any moment: a record lasts before it is acknowledged.
//!
//! A record stands in a frame (`stm_frames`), which is written and then synced. A crash in between leaves the records from before, with the new one or
//! without, or a torn end, which the next opening cuts off.
#![tactic(auto)]

mod disk;
mod fault;
pub mod laws;
mod opening;
mod record_file;

pub use disk::Disk;
pub use fault::DiskFault;
pub use opening::{Opened, open};
pub use record_file::RecordFile;
