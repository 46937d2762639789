//! Reading the frames of a file.
ghost use Rattle.std.specs.Prelude.{◌≡◌, ◌≤◌, ◌↔◌, length, take, drop, IfOk, IsTrue, IsFalse};
ghost use Rattle.stm_frames.specs.Frame.{log, NoFrame, NoneIn, SomeIn, at_places};

use crate::payload_at;
use std::alloc::{AllocError, Global};

/// What was found in a file.
#[derive(Drop)]
pub struct Places {
    /// Where the records stand, each a start and a length.
    pub payloads: Vec<(usize, usize)>,
    /// Where the frames end: the file ends there, or no frame begins there.
    pub end: usize,
}

/// The frames of a file, one behind the other, up to the first that is not whole. Out of memory is the only refusal.
pub fn read_frames(alloc: Global, bytes: &[u8]) -> Result<Places, AllocError>
    ensures room { IfOk result (λ places. places.end ≤ length bytes.now) }
    ensures frames { IfOk result (λ places. take places.end bytes.now ≡ log 0 (at_places bytes.now places.payloads.items)) }
    ensures stops { IfOk result (λ places. NoFrame places.end (drop places.end bytes.now)) }
{
    let mut payloads = Vec::new(alloc);
    let mut end = 0;
    while let Some(len) = payload_at(end, behind(bytes, end)) {
        payloads.push((end + 24, len))?;
        end += 24 + len;
    }
    Ok(Places { payloads, end })
}

/// Whether a whole frame begins anywhere from this offset on.
pub fn has_frame(bytes: &[u8], from: usize) -> bool
    requires { from ≤ length bytes.now }
    ensures some { IsTrue result → SomeIn from (drop from bytes.now) }
    ensures none { IsFalse result → NoneIn from (drop from bytes.now) }
{
    for at in from..bytes.len() {
        if let Some(_len) = payload_at(at, behind(bytes, at)) {
            return true;
        }
    }
    false
}

/// The bytes from an offset on.
fn behind(bytes: &[u8], at: usize) -> &[u8]
    requires { at ≤ length bytes.now }
    ensures { result.now ≡ drop at bytes.now }
{
    &bytes[at..]
}
