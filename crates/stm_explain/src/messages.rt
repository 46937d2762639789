//! What a command says of a fault on standard error, and the status that it ends with.
ghost use Rattle.std.specs.Prelude.{◌≡◌, ◌++◌, false, decimal};
ghost use Rattle.stm_devices.specs.Transfers.{HasWritten};
ghost use Rattle.stm_explain.specs.Saying.{bad_input, usage_fault, audit_fault, status_of, text_of, Reports};

use itoa::Buffer;
use std::alloc::AllocError;
use stm_devices::{DeviceFault, Sink, write_all};
use stm_json::BadInput;

/// A text for people, or the failure of a growth.
pub type Said = Result<String, AllocError>;

/// Writes a text to a sink that has not failed, which takes no memory. Where the sink fails, a prefix of the text was written.
pub fn write_text<E: Sink>(err: &mut E, text: &str) -> Result<(), DeviceFault>
    requires { E.failed err.old ≡ false }
    ensures { HasWritten (E.held err.old) (E.held err.new) (E.failed err.new) result text.now }
{
    write_all(err, text.as_bytes())
}

/// Writes two texts, one after the other. Where the sink fails, a prefix of them was written.
fn write_both<E: Sink>(err: &mut E, first: &str, second: &str) -> Result<(), DeviceFault>
    requires { E.failed err.old ≡ false }
    ensures { HasWritten (E.held err.old) (E.held err.new) (E.failed err.new) result (first.now ++ second.now) }
{
    write_text(err, first)?;
    write_text(err, second)?;
    Ok(())
}

/// Writes what is wrong with an input: `begin`, after it `PLACE: CAUSE`, and a line feed. Where the sink fails, a prefix of that was written.
fn write_bad<E: Sink>(err: &mut E, begin: &str, bad: &BadInput) -> Result<(), DeviceFault>
    requires { E.failed err.old ≡ false }
    ensures { HasWritten (E.held err.old) (E.held err.new) (E.failed err.new) result (bad_input begin.now bad.now) }
{
    write_both(err, begin, bad.place.as_str())?;
    write_both(err, ": ", bad.cause.name())?;
    write_text(err, "\n")?;
    Ok(())
}

/// Writes what is wrong with the words of a command line, and the usage. Where the sink fails, a prefix of that was written.
fn write_usage<E: Sink>(err: &mut E, wrong: &str, usage: &str) -> Result<(), DeviceFault>
    requires { E.failed err.old ≡ false }
    ensures { HasWritten (E.held err.old) (E.held err.new) (E.failed err.new) result (usage_fault wrong.now usage.now) }
{
    write_both(err, "error: ", wrong)?;
    write_text(err, usage)?;
    Ok(())
}

/// Writes a number. Where the sink fails, a prefix of it was written.
fn write_number<E: Sink>(err: &mut E, number: u64) -> Result<(), DeviceFault>
    requires { E.failed err.old ≡ false }
    ensures { HasWritten (E.held err.old) (E.held err.new) (E.failed err.new) result (decimal number) }
{
    let mut buffer = Buffer::new();
    write_text(err, buffer.format(number))
}

/// Writes which job's end does not stand. Where the sink fails, a prefix of that was written.
fn write_audit<E: Sink>(err: &mut E, job: u64) -> Result<(), DeviceFault>
    requires { E.failed err.old ≡ false }
    ensures { HasWritten (E.held err.old) (E.held err.new) (E.failed err.new) result (audit_fault job) }
{
    write_text(err, "stmrun: audit ")?;
    write_number(err, job)?;
    write_text(err, "\n")?;
    Ok(())
}

/// What a command says of a fault, and its status. What is said is written piece by piece, which takes no memory.
#[derive(Clone, Copy)]
pub enum Message<'a> {
    /// An input is bad: `begin`, then `PLACE: CAUSE`. Status 2.
    Bad { begin: &'a str, bad: &'a BadInput },
    /// The words of a command line are wrong: `error: WRONG`, then the usage. Status 2.
    Usage { wrong: &'a str, usage: &'a str },
    /// `stmrun: out of memory`. Status 3.
    OutOfMemory,
    /// `stmrun: device fault`. Status 3.
    Device,
    /// A thread could not be started: `stmrun: no thread`. Status 3.
    NoThread,
    /// The end of a job does not stand: `stmrun: audit JOB`. Status 3.
    Audit { job: u64 },
}

impl Message<'_> {
    /// The status: 2 where what the command was given is wrong, else 3.
    fn status(&self) -> u8
        ensures { result ≡ status_of self.now }
    {
        match self {
            Message::Bad { .. } | Message::Usage { .. } => 2,
            Message::OutOfMemory | Message::Device => 3,
            Message::NoThread | Message::Audit { .. } => 3,
        }
    }

    /// Writes what is said. Where the sink fails, a prefix of it was written.
    fn write<E: Sink>(&self, err: &mut E) -> Result<(), DeviceFault>
        requires { E.failed err.old ≡ false }
        ensures { HasWritten (E.held err.old) (E.held err.new) (E.failed err.new) result (text_of self.now) }
    {
        match self {
            Message::Bad { begin, bad } => write_bad(err, begin, bad),
            Message::Usage { wrong, usage } => write_usage(err, wrong, usage),
            Message::OutOfMemory => write_text(err, "stmrun: out of memory\n"),
            Message::Device => write_text(err, "stmrun: device fault\n"),
            Message::NoThread => write_text(err, "stmrun: no thread\n"),
            Message::Audit { job } => write_audit(err, *job),
        }
    }

    /// Writes what is said, and more after it. Where the sink fails, a prefix of that was written.
    fn write_with<E: Sink>(&self, err: &mut E, more: &str) -> Result<(), DeviceFault>
        requires { E.failed err.old ≡ false }
        ensures { HasWritten (E.held err.old) (E.held err.new) (E.failed err.new) result (text_of self.now ++ more.now) }
    {
        self.write(err)?;
        write_text(err, more)?;
        Ok(())
    }

    /// Says what went wrong to a sink that has not failed, and returns the status. It takes no memory. Where the sink fails, a prefix was written;
    /// that changes no status.
    pub fn report<E: Sink>(&self, err: &mut E) -> u8
        requires { E.failed err.old ≡ false }
        ensures { Reports (status_of self.now) (text_of self.now) (E.held err.old) (E.held err.new) (E.failed err.new) result }
    {
        let _ = self.write(err);
        self.status()
    }

    /// Says what went wrong, and more after it, and returns the status, all as `report` does.
    pub fn report_with<E: Sink>(&self, err: &mut E, more: &str) -> u8
        requires { E.failed err.old ≡ false }
        ensures { Reports (status_of self.now) (text_of self.now ++ more.now) (E.held err.old) (E.held err.new) (E.failed err.new) result }
    {
        let _ = self.write_with(err, more);
        self.status()
    }
}
