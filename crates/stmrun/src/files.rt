//! Files and standard input as readers.
ghost use Rattle.std.specs.Prelude.{◌≡◌, None, IsErr};
ghost use Rattle.std.specs.Io.{ReadsAtMost};
ghost use Rattle.std.specs.Io.KnownBytes.{ReadConsumes};
ghost use Rattle.stmrun.specs.declared.files.Opened.TheVariants.{Missing};

use std::fs;
use std::io::{self, Input, Read};
use std::rt::Files;

/// What a command reads. A file that could not be opened fails when it is read.
#[derive(Drop)]
pub(crate) enum Opened<F, I, C> {
    /// An open file.
    File(F),
    /// Standard input.
    Standard(I),
    /// No file could be opened, for this reason.
    Missing(io::Error),
    /// What a source was compiled to.
    Compiled(C),
}

/// The file of a path, or standard input where the path is `-`, where a source could stand, too.
pub(crate) fn open_beside<R: Files + Input, C>(
    rt: &R,
    path: &str,
) -> Opened<R::File, R::Reader, C> {
    if path == "-" {
        return Opened::Standard(rt.reader());
    }
    match fs::open(rt, path) {
        Ok(file) => Opened::File(file),
        Err(error) => Opened::Missing(error),
    }
}

/// The file of a path, or standard input where the path is `-`.
pub(crate) fn open<R: Files + Input>(
    rt: &R,
    path: &str,
) -> Opened<R::File, R::Reader, &'static [u8]> {
    open_beside(rt, path)
}

/// Whether no file has this path.
pub(crate) fn is_missing(rt: &HostRuntime, path: &str) -> bool {
    matches!(fs::exists(rt, path), Ok(false))
}

impl<F: Read, I: Read, C: Read> Read for Opened<F, I, C> {
    fn read(&mut self, buffer: &mut [u8]) -> io::Result<usize>
        ensures bound { ReadsAtMost result buffer.new }
        ensures bytes { ReadConsumes None None result buffer.new }
        ensures missing { (error : _) → self.old ≡ Missing error → IsErr result }
    {
        match self {
            Opened::File(file) => file.read(buffer),
            Opened::Standard(input) => input.read(buffer),
            Opened::Missing(error) => Err(*error),
            Opened::Compiled(line) => line.read(buffer),
        }
    }
}
