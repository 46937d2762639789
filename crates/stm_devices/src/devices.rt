//! Where bytes come from, and where they go.
ghost use Rattle.std.specs.Prelude.{◌≡◌, ◌<◌, ◌≤◌, ◌+◌, ℕ, List, Option, Bool, false, length};
ghost use Rattle.stm_devices.specs.Devices.{Reads, Writes};

use std::io::{Read, Write};
use thiserror::Error;

/// A device failed: no more is known of why.
#[derive(Clone, Copy, Debug, PartialEq, Eq, Error)]
#[error("device fault")]
pub struct DeviceFault;

/// Where bytes are read from.
pub trait Source {
    /// The bytes that reads will give from here on, where they are known.
    ghost left: { Self → Option (List ℕ) };

    /// Whether a read has failed.
    ghost failed: { Self → Bool };

    /// How often it was read. No source has to keep it: a call that takes any source can raise it by reads alone, so what
    /// it ensures of this number bounds its reads.
    ghost reads: { Self → ℕ } = { λ _. 0 };

    /// Reads some bytes into the start of the buffer, and returns how many: 0 only at the end, or for an empty
    /// buffer. It fails exactly where the device has then failed, and is not called again.
    fn read(&mut self, buffer: &mut [u8]) -> Result<usize, DeviceFault>
        requires { failed self.old ≡ false }
        ensures bytes { Reads (left self.old) (left self.new) (failed self.new) result buffer.new }
        ensures counted { reads self.new ≤ reads self.old + 1 };
}

/// Where bytes are written to.
pub trait Sink {
    /// The bytes that were written, where they are known.
    ghost held: { Self → Option (List ℕ) };

    /// Whether a write has failed.
    ghost failed: { Self → Bool };

    /// Writes at least one byte from the start of these, and returns how many. It fails exactly where the device
    /// has then failed, writes nothing then, and is not called again.
    fn write(&mut self, bytes: &[u8]) -> Result<usize, DeviceFault>
        requires works { failed self.old ≡ false }
        requires some { 0 < length bytes.now }
        ensures { Writes (held self.old) (held self.new) (failed self.new) result bytes.now };
}

/// A reader or a writer of `std::io`, as a source or a sink.
///
/// An error of any kind has failed the device, `Interrupted` too, and so has a write that takes no byte.
#[derive(Debug, Drop)]
pub struct Std<D> {
    /// The reader or the writer.
    pub device: D,
    /// Whether it has failed.
    pub failed: bool,
}

impl<D> Std<D> {
    /// A device that has not failed.
    pub fn new(device: D) -> Std<D>
        ensures device { result.device ≡ device }
        ensures failed { result.failed ≡ false }
    {
        Std {
            device,
            failed: false,
        }
    }
}

impl<R: Read> Source for Std<R> {
    ghost left = { λ s. R.remaining s.device };

    ghost failed = { λ s. s.failed };

    fn read(&mut self, buffer: &mut [u8]) -> Result<usize, DeviceFault> {
        match self.device.read(buffer) {
            Ok(count) => Ok(count),
            Err(_) => {
                self.failed = true;
                Err(DeviceFault)
            }
        }
    }
}

impl<W: Write> Sink for Std<W> {
    ghost held = { λ s. W.contents s.device };

    ghost failed = { λ s. s.failed };

    fn write(&mut self, bytes: &[u8]) -> Result<usize, DeviceFault> {
        match self.device.write(bytes) {
            Ok(count) if count > 0 => Ok(count),
            _ => {
                self.failed = true;
                Err(DeviceFault)
            }
        }
    }
}
