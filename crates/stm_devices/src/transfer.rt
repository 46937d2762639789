//! Reading a source to its end, and writing bytes to a sink.
ghost use Rattle.std.specs.Prelude.{◌≡◌, ◌<◌, ◌≤◌, ◌+◌, false};
ghost use Rattle.stm_devices.specs.Transfers.{HasTaken, HasRead, HasWritten};

use crate::devices::{DeviceFault, Sink, Source};
use std::alloc::{AllocError, Global};

/// `read_all` reads at most this many bytes, in at most this many reads: one byte more than a scenario may have.
pub const MOST_READ: usize = 16777217;

/// How many bytes are read at a time.
const PIECE: usize = 4096;

/// Why reading stopped.
#[derive(Clone, Copy, Debug, PartialEq, Eq)]
pub enum ReadFault {
    /// An allocation failed.
    OutOfMemory,
    /// The source failed.
    Device,
}

impl From<AllocError> for ReadFault {
    ghost use Rattle.std.specs.Prelude.{◌≡◌};
    ghost use Rattle.stm_devices.specs.declared.transfer.ReadFault.TheVariants.{OutOfMemory};

    ghost from_gives = { λ _ e. e ≡ OutOfMemory };

    fn from(_error: AllocError) -> ReadFault {
        ReadFault::OutOfMemory
    }
}

impl From<DeviceFault> for ReadFault {
    ghost use Rattle.std.specs.Prelude.{◌≡◌};
    ghost use Rattle.stm_devices.specs.declared.transfer.ReadFault.TheVariants.{Device};

    ghost from_gives = { λ _ e. e ≡ Device };

    fn from(_fault: DeviceFault) -> ReadFault {
        ReadFault::Device
    }
}

/// Reads a piece of at most `most` bytes through the buffer, appends it to the bytes, and returns its length: 0 only at the end.
fn read_piece<S: Source>(
    source: &mut S,
    buffer: &mut [u8; PIECE],
    bytes: &mut Vec<u8>,
    most: usize,
) -> Result<usize, ReadFault>
    requires works { S.failed source.old ≡ false }
    requires some { 0 < most }
    ensures taken { HasTaken (S.left source.old) (S.left source.new) (S.failed source.new) most result bytes.old.items bytes.new.items }
    ensures counted { S.reads source.new ≤ S.reads source.old + 1 }
{
    let room = most.min(PIECE);
    let count = source.read(&mut buffer[..room])?;
    bytes.extend_from_slice(&buffer[..count])?;
    Ok(count)
}

/// All bytes of a source, up to `MOST_READ` of them.
///
/// It fails as `OutOfMemory` where an allocation failed, and as `Device` exactly where the source has failed. What
/// was read until then is lost. The source is read at most `MOST_READ` times, also by a call that fails.
pub fn read_all<S: Source>(alloc: Global, source: &mut S) -> Result<Vec<u8>, ReadFault>
    requires { S.failed source.old ≡ false }
    ensures bytes { HasRead (λ v. v.items) (S.left source.old) (S.failed source.new) result }
    ensures bounded { S.reads source.new ≤ S.reads source.old + MOST_READ }
{
    let mut buffer = [0u8; PIECE];
    let mut bytes = Vec::new(alloc);
    while bytes.len() < MOST_READ {
        let most = MOST_READ - bytes.len();
        let count = read_piece(source, &mut buffer, &mut bytes, most)?;
        if count == 0 {
            return Ok(bytes);
        }
    }
    Ok(bytes)
}

/// Writes all these bytes. It fails exactly where the sink has failed: then a prefix of them was written.
pub fn write_all<W: Sink>(sink: &mut W, bytes: &[u8]) -> Result<(), DeviceFault>
    requires { W.failed sink.old ≡ false }
    ensures { HasWritten (W.held sink.old) (W.held sink.new) (W.failed sink.new) result bytes.now }
{
    let mut rest = bytes;
    while !rest.is_empty() {
        let count = sink.write(rest)?;
        let (_, after) = rest.split_at(count);
        rest = after;
    }
    Ok(())
}
