//! Frames: how records of bytes stand in a file, so that a whole one is told from a torn or a changed one.
//!
//! A frame is the length of a record, a digest of the length, a digest of the record, and the record. Both digests are taken with the frame's place, so that
//! a frame which was moved or copied is none.
#![tactic(auto)]

mod digest;
mod frame;
mod reading;

pub use digest::digest_of;
pub use frame::{frame_of, payload_at};
pub use reading::{Places, has_frame, read_frames};
