//! The frame of one record.
ghost use Rattle.std.specs.Prelude.{◌≡◌, ◌+◌, ◌≤◌, ◌++◌, length, take, drop, IfOk, IfSome, IsNone};
ghost use Rattle.std.specs.Int.{w64, to_le_bytes};
ghost use Rattle.stm_frames.specs.Frame.{frame, NoFrame};

use crate::digest_of;
use std::alloc::{AllocError, Global};

/// The frame of a record that is to stand at this offset of a file.
pub fn frame_of(alloc: Global, at: usize, payload: &[u8]) -> Result<Vec<u8>, AllocError>
    ensures { IfOk result (λ bytes. bytes.items ≡ frame at payload.now) }
{
    let mut bytes = Vec::new(alloc);
    let len = (payload.len() as u64).to_le_bytes();
    bytes.extend_from_slice(&len)?;
    bytes.extend_from_slice(&digest_of(at as u64, &len).to_le_bytes())?;
    bytes.extend_from_slice(&digest_of(at as u64, payload).to_le_bytes())?;
    bytes.extend_from_slice(payload)?;
    Ok(bytes)
}

/// The length of the record whose frame begins these bytes, which stand at this offset: `None` exactly where no whole frame begins them.
///
/// A length is believed only where the digest of its own bytes is right: so a scan of bytes that look like many lengths looks at no record of them.
pub fn payload_at(at: usize, bytes: &[u8]) -> Option<usize>
    ensures room { IfSome result (λ n. 24 + n ≤ length bytes.now) }
    ensures whole { IfSome result (λ n. bytes.now ≡ frame at (take n (drop 24 bytes.now)) ++ drop (24 + n) bytes.now) }
    ensures none { IsNone result → NoFrame at bytes.now }
{
    if bytes.len() < 24 {
        return None;
    }
    let len = number_at(bytes, 0);
    if len > (bytes.len() - 24) as u64 {
        return None;
    }
    if number_at(bytes, 8) != digest_of(at as u64, &len.to_le_bytes()) {
        return None;
    }
    let sum = number_at(bytes, 16);
    let len = len as usize;
    if sum == digest_of(at as u64, &bytes[24..24 + len]) {
        return Some(len);
    }
    None
}

/// The number that the eight bytes at this offset are, the lowest first.
fn number_at(bytes: &[u8], at: usize) -> u64
    requires { at + 8 ≤ length bytes.now }
    ensures { to_le_bytes w64 result ≡ take 8 (drop at bytes.now) }
{
    let mut eight = [0u8; 8];
    eight.copy_from_slice(&bytes[at..at + 8]);
    number_of(eight)
}

/// The number that these bytes are, the lowest first.
fn number_of(bytes: [u8; 8]) -> u64
    ensures { to_le_bytes w64 result ≡ bytes }
{
    u64::from_le_bytes(bytes)
}
