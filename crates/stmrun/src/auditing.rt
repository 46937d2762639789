//! The command `audit`.
ghost use Rattle.std.specs.Prelude.{◌≡◌, false};

use crate::explaining::{BAD, kept, say_seeming, say_unread, say_unwritten};
use crate::found::print;
use crate::kinds::{begins_report, seeming};
use crate::noting::Noting;
use crate::sources::out_of_memory;
use crate::wording::{TEXT, held};
use std::io::Write;
use stm_arguments::AuditWords;
use stm_audit::{audit_in_words, audit_to, explain_older, explain_trace};
use stm_commands::Std;

/// The status where a promise is broken, or commits are missing.
const BROKEN: u8 = 1;

/// What is wanted in the place of a trace.
const TRACE: &str = "trace: that is one array of commits, [LEVEL,REVISION,[READ,..],[WRITE,..]]";

/// Says why the bytes of the file of a name are no trace, or what to do where one seems to be younger than its store, by the status of its audit; nothing, where
/// memory runs out.
fn say_why(rt: &HostRuntime, name: &str, bytes: &[u8], explain: bool, status: u8) {
    let said = if status == BROKEN {
        explain_older(rt.alloc(), bytes)
    } else if status == BAD && explain {
        explain_trace(rt.alloc(), name, bytes)
    } else {
        return;
    };
    if let Ok(said) = said {
        let _ = rt.eprint(said.as_str());
    }
}

/// Says of what is no trace, under a name, what it seems to be.
fn say_no_trace(rt: &HostRuntime, name: &str, text: &str) {
    let seems = if begins_report(text) {
        Some("a report")
    } else {
        seeming(text)
    };
    say_seeming(rt, name, seems, TRACE);
}

/// What an audit came to.
#[derive(Drop)]
struct Ended {
    /// The status.
    status: u8,
    /// The bytes that were read; nothing, where an allocation failed for them.
    bytes: Option<Vec<u8>>,
}

/// Audits the trace of a path, or that on standard input, and prints on `out` what was found. A fault is explained, or is not.
fn audit_on<W: Write + Drop>(
    rt: &HostRuntime,
    words: &AuditWords<'_>,
    explain: bool,
    out: &mut Std<Noting<W>>,
) -> Ended
    requires { out.old.failed ≡ false }
{
    let mut input = kept(rt, words.trace.unwrap_or("-"));
    let mut err = Std::new(rt.stderr());
    let status = audit_to(rt.alloc(), &mut input, out, &mut err);
    if !input.is_cut {
        say_why(rt, input.name, input.bytes.as_slice(), explain, status);
    }
    if explain {
        say_unwritten(rt, out.device.failure.take());
    }
    if status == BAD {
        say_no_trace(rt, input.name, input.text().unwrap_or(""));
    }
    say_unread(rt, input.name, input.source.device.failure);
    let bytes = if input.is_cut {
        None
    } else {
        Some(input.bytes)
    };
    Ended { status, bytes }
}

/// Prints an audit in words, and gives its status, or that of a failed output; nothing, where it has none, and where memory ran out.
fn print_in_words(rt: &HostRuntime, ended: &Ended, explain: bool) -> u8 {
    let Some(bytes) = &ended.bytes else {
        return out_of_memory(rt);
    };
    match audit_in_words(rt.alloc(), bytes.as_slice()) {
        Ok(Some(said)) => print(rt, said.as_str().as_bytes(), ended.status, explain),
        Ok(None) => ended.status,
        Err(_) => out_of_memory(rt),
    }
}

/// Audits the trace that words name, and prints what was found, in words or as lines.
pub(crate) fn run_audit(rt: &HostRuntime, words: &AuditWords<'_>, explain: bool) -> u8 {
    if words.format == Some(TEXT) {
        let mut out = held(rt);
        let ended = audit_on(rt, words, explain, &mut out);
        if ended.status > BROKEN {
            return ended.status;
        }
        return print_in_words(rt, &ended, explain);
    }
    let mut out = Std::new(Noting::new(rt.stdout()));
    audit_on(rt, words, explain, &mut out).status
}
