//! Sources that keep what was read of them.
ghost use Rattle.std.specs.Prelude.{◌≡◌, ◌≤◌, ◌+◌, ◌++◌, [], take, false, IfOk, IfSome, string_bytes};
ghost use Rattle.stm_devices.specs.Devices.{Reads};
ghost use Rattle.stm_explain.specs.Explaining.{ExplainsOrNothing};

use crate::explaining::explain;
use crate::forms::Input;
use std::alloc::Global;
use stm_devices::{DeviceFault, Source};
use stm_json::BadInput;

/// A source with the name of its file, which keeps what was read of it. It reads as the source itself does.
#[derive(Drop)]
pub struct KeptSource<'a, S> {
    /// The name, as people know it.
    pub name: &'a str,
    /// The source.
    pub source: S,
    /// What was read, in order.
    pub bytes: Vec<u8>,
    /// Whether bytes are missing there, since an allocation failed.
    pub is_cut: bool,
}

impl<'a, S> KeptSource<'a, S> {
    /// A source of which nothing has been read yet.
    pub fn new(alloc: Global, name: &'a str, source: S) -> KeptSource<'a, S>
        ensures source { result.source ≡ source }
        ensures name { result.name.now ≡ name.now }
        ensures nothing { result.bytes.items ≡ [] }
        ensures whole { result.is_cut ≡ false }
    {
        KeptSource {
            name,
            source,
            bytes: Vec::new(alloc),
            is_cut: false,
        }
    }

    /// The explanation of a fault that a reader found in what was read, and those of other faults of it, as lines; nothing where an allocation
    /// failed, now or before.
    pub fn explanation(&self, alloc: Global, input: Input, bad: &BadInput) -> String
        ensures { ExplainsOrNothing self.now.name.now self.now.bytes.items (string_bytes result) }
    {
        if self.is_cut {
            return String::new(alloc);
        }
        match explain(alloc, input, self.name, self.bytes.as_slice(), bad) {
            Ok(line) => line,
            Err(_) => String::new(alloc),
        }
    }

    /// What was read, as text; nothing where it is none, or where an allocation failed before.
    pub fn text(&self) -> Option<&str>
        ensures { IfSome result (λ text. text.now ≡ self.now.bytes.items) }
    {
        if self.is_cut {
            return None;
        }
        match std::str::from_utf8(self.bytes.as_slice()) {
            Ok(text) => Some(text),
            Err(_) => None,
        }
    }

    /// Keeps bytes that were read, unless some are missing already.
    fn keep(&mut self, bytes: &[u8])
        ensures source { self.new.source ≡ self.old.source }
        ensures kept { self.new.is_cut ≡ false → (self.old.is_cut ≡ false) × (self.new.bytes.items ≡ self.old.bytes.items ++ bytes.now) }
    {
        if self.is_cut {
            return;
        }
        if self.bytes.extend_from_slice(bytes).is_err() {
            self.is_cut = true;
        }
    }
}

impl<'a, S: Source> Source for KeptSource<'a, S> {
    ghost left = { λ k. S.left k.source };

    ghost failed = { λ k. S.failed k.source };

    ghost reads = { λ k. S.reads k.source };

    fn read(&mut self, buffer: &mut [u8]) -> Result<usize, DeviceFault>
        requires { S.failed self.old.source ≡ false }
        ensures bytes { Reads (S.left self.old.source) (S.left self.new.source) (S.failed self.new.source) result buffer.new }
        ensures counted { S.reads self.new.source ≤ S.reads self.old.source + 1 }
        ensures kept { self.new.is_cut ≡ false → (self.old.is_cut ≡ false) × IfOk result (λ n. self.new.bytes.items ≡ self.old.bytes.items ++ take n buffer.new) }
    {
        let count = self.source.read(buffer)?;
        self.keep(&buffer[..count]);
        Ok(count)
    }
}
