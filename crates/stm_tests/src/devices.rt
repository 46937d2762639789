//! Devices over memory that fail. One type of reader and one of writer serve every test, since the prover goes through a command anew for
//! each type of device.

use std::alloc::Global;
use std::io;
use std::io::{ErrorKind, Read, Write};

/// How a device moves bytes, and when it fails: it moves pieces of a length, and one of its calls, counted from 0, fails with an error of
/// a kind, or moves no byte where there is none. Those after it would go on, so that a command that goes on after a fault comes to a good
/// end.
#[derive(Clone, Copy)]
pub struct Fault {
    pub piece: usize,
    pub bad_call: usize,
    pub kind: Option<ErrorKind>,
}

/// How a reader fails.
pub const READ_FAULTS: &[Option<ErrorKind>] = &[
    Some(ErrorKind::Interrupted),
    Some(ErrorKind::BrokenPipe),
];

/// How a writer fails: by an error, or by taking no byte.
pub const WRITE_FAULTS: &[Option<ErrorKind>] = &[
    Some(ErrorKind::Interrupted),
    Some(ErrorKind::BrokenPipe),
    None,
];

/// A device that does not fail.
const NEVER: Fault = Fault {
    piece: usize::MAX,
    bad_call: usize::MAX,
    kind: None,
};

/// How the devices of a command fail: the reader of its scenario or of its jobs, that of a report, its output and its standard error.
#[derive(Clone, Copy)]
pub struct Faults {
    pub scenario: Fault,
    pub report: Fault,
    pub out: Fault,
    pub err: Fault,
}

/// No device fails.
pub const NONE: Faults = Faults {
    scenario: NEVER,
    report: NEVER,
    out: NEVER,
    err: NEVER,
};

/// A reader over memory.
#[derive(Drop)]
pub struct Giver<'a> {
    calls: usize,
    rest: &'a [u8],
    fault: Fault,
}

impl Read for Giver<'_> {
    fn read(&mut self, buffer: &mut [u8]) -> io::Result<usize> {
        let call = self.calls;
        self.calls = call.wrapping_add(1);
        if call == self.fault.bad_call {
            return match self.fault.kind {
                Some(kind) => Err(io::Error::from(kind)),
                None => Ok(0),
            };
        }
        let count = self.fault.piece.min(self.rest.len()).min(buffer.len());
        let (front, rest) = self.rest.split_at(count);
        buffer[..count].copy_from_slice(front);
        self.rest = rest;
        Ok(count)
    }
}

/// A reader of bytes.
pub fn reader_of(bytes: &[u8], fault: Fault) -> Giver<'_> {
    Giver {
        calls: 0,
        rest: bytes,
        fault,
    }
}

/// A writer into memory.
#[derive(Drop)]
pub struct Taker {
    pub bytes: Vec<u8>,
    calls: usize,
    fault: Fault,
}

impl Write for Taker {
    fn write(&mut self, bytes: &[u8]) -> io::Result<usize> {
        let call = self.calls;
        self.calls = call.wrapping_add(1);
        if call == self.fault.bad_call {
            return match self.fault.kind {
                Some(kind) => Err(io::Error::from(kind)),
                None => Ok(0),
            };
        }
        let count = self.fault.piece.min(bytes.len());
        self.bytes.extend_from_slice(&bytes[..count])?;
        Ok(count)
    }

    fn flush(&mut self) -> io::Result<()> {
        Ok(())
    }
}

/// A writer that holds nothing yet.
pub fn writer_of(alloc: Global, fault: Fault) -> Taker {
    Taker {
        bytes: Vec::new(alloc),
        calls: 0,
        fault,
    }
}

/// The first pieces of a text, each of this length.
pub fn front(text: &str, pieces: usize, piece: usize) -> &[u8] {
    let bytes = text.as_bytes();
    let end = pieces.saturating_mul(piece).min(bytes.len());
    &bytes[..end]
}
