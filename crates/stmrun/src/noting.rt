//! Why the system refused what was asked of a reader or a writer.

use std::alloc::{AllocError, Global};
use std::io::{self, Read, Write};

/// A reader or a writer that notes why it failed last.
#[derive(Drop)]
pub(crate) struct Noting<D> {
    /// The reader or the writer.
    device: D,
    /// Why it failed last, where it has failed.
    pub(crate) failure: Option<io::Error>,
}

impl<D> Noting<D> {
    /// A device that has not failed.
    pub(crate) fn new(device: D) -> Noting<D> {
        Noting {
            device,
            failure: None,
        }
    }

    /// The reader or the writer.
    pub(crate) fn into_device(self) -> D {
        let Noting { device, .. } = self;
        device
    }
}

impl<R: Read> Read for Noting<R> {
    fn read(&mut self, buffer: &mut [u8]) -> io::Result<usize> {
        match self.device.read(buffer) {
            Ok(count) => Ok(count),
            Err(error) => {
                self.failure = Some(error);
                Err(error)
            }
        }
    }
}

impl<W: Write> Write for Noting<W> {
    fn write(&mut self, bytes: &[u8]) -> io::Result<usize> {
        match self.device.write(bytes) {
            Ok(count) => Ok(count),
            Err(error) => {
                self.failure = Some(error);
                Err(error)
            }
        }
    }

    fn flush(&mut self) -> io::Result<()> {
        match self.device.flush() {
            Ok(()) => Ok(()),
            Err(error) => {
                self.failure = Some(error);
                Err(error)
            }
        }
    }
}

/// A writer that takes all that is written to it, and keeps it, unless an allocation fails for that.
#[derive(Drop)]
pub(crate) struct Kept {
    /// What was written.
    bytes: Vec<u8>,
    /// Whether an allocation failed for some of it.
    is_cut: bool,
}

impl Kept {
    /// A writer to which nothing has been written.
    pub(crate) fn new(alloc: Global) -> Kept {
        Kept {
            bytes: Vec::new(alloc),
            is_cut: false,
        }
    }

    /// All that was written.
    pub(crate) fn into_bytes(self) -> Result<Vec<u8>, AllocError> {
        let Kept { bytes, is_cut } = self;
        if is_cut { Err(AllocError) } else { Ok(bytes) }
    }
}

impl Write for Kept {
    fn write(&mut self, bytes: &[u8]) -> io::Result<usize> {
        if !self.is_cut && self.bytes.extend_from_slice(bytes).is_err() {
            self.is_cut = true;
        }
        Ok(bytes.len())
    }

    fn flush(&mut self) -> io::Result<()> {
        Ok(())
    }
}

/// A writer that keeps what was written to it, but what an allocation failed for.
#[derive(Drop)]
pub(crate) struct Keeping<W> {
    /// The writer.
    device: W,
    /// What was written.
    bytes: Vec<u8>,
}

impl<W: Drop> Keeping<W> {
    /// A writer to which nothing has been written.
    pub(crate) fn new(alloc: Global, device: W) -> Keeping<W> {
        Keeping {
            device,
            bytes: Vec::new(alloc),
        }
    }

    /// What was written.
    pub(crate) fn into_bytes(self) -> Vec<u8> {
        let Keeping { bytes, .. } = self;
        bytes
    }
}

impl<W: Write> Write for Keeping<W> {
    fn write(&mut self, bytes: &[u8]) -> io::Result<usize> {
        match self.device.write(bytes) {
            Ok(count) => {
                let _ = self
                    .bytes
                    .extend_from_slice(bytes.get(..count).unwrap_or(&[]));
                Ok(count)
            }
            Err(error) => Err(error),
        }
    }

    fn flush(&mut self) -> io::Result<()> {
        self.device.flush()
    }
}
