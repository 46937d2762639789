//! Digests of bytes at a place.
ghost use Rattle.std.specs.Prelude.{◌≡◌};
ghost use Rattle.stm_frames.specs.Frame.{digest};

use std::hash::{DefaultHasher, Hasher};

/// SipHash-1-3 of the place and the bytes, with fixed keys: it tells what was damaged by chance, and nothing of one who changes a file on purpose.
pub fn digest_of(at: u64, bytes: &[u8]) -> u64
    ensures { result ≡ digest at bytes.now }
{
    let mut hasher = DefaultHasher::new();
    hasher.write(&at.to_le_bytes());
    hasher.write(bytes);
    hasher.finish()
}
