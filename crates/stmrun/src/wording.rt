//! What jobs and a store print, in words.
ghost use Rattle.std.specs.Prelude.{◌≡◌, false};

use crate::found::print;
use crate::noting::{Kept, Noting};
use crate::sources::out_of_memory;
use std::alloc::{AllocError, Global};
use stm_answers::{NamedRunner, job_line_in_words, store_line_in_words};
use stm_commands::Std;
use stm_explain::Said;

/// The name of the form in which lines are words.
pub(crate) const TEXT: &str = "text";

/// Whose lines they are.
#[derive(Clone, Copy)]
pub(crate) enum Lines<'a> {
    /// Those of jobs, whose source names these.
    OfJobs(&'a [NamedRunner]),
    /// Those of a store.
    OfStore,
}

/// An output that is kept.
pub(crate) fn held(rt: &HostRuntime) -> Std<Noting<Kept>>
    ensures { result.failed ≡ false }
{
    Std::new(Noting::new(Kept::new(rt.alloc())))
}

/// A line in words.
fn line_in_words(
    alloc: Global,
    lines: Lines<'_>,
    line: &str,
) -> Result<Option<String>, AllocError> {
    match lines {
        Lines::OfJobs(runners) => job_line_in_words(alloc, line, runners),
        Lines::OfStore => store_line_in_words(alloc, line),
    }
}

/// Lines in words.
fn lines_in_words(alloc: Global, lines: Lines<'_>, printed: &str) -> Said {
    let mut out = String::new(alloc);
    for line in printed.lines() {
        match line_in_words(alloc, lines, line)? {
            Some(words) => out.push_str(words.as_str())?,
            None => out.push_str(line)?,
        }
        out.push('\n')?;
    }
    Ok(out)
}

/// Prints lines that were kept, in words, and gives a status, or that of a failed output; nothing of them, where memory ran out.
pub(crate) fn print_words(
    rt: &HostRuntime,
    lines: Lines<'_>,
    out: Std<Noting<Kept>>,
    status: u8,
    explain: bool,
) -> u8 {
    let Ok(bytes) = out.device.into_device().into_bytes() else {
        return out_of_memory(rt);
    };
    let printed = str::from_utf8(bytes.as_slice()).unwrap_or("");
    match lines_in_words(rt.alloc(), lines, printed) {
        Ok(words) => print(rt, words.as_str().as_bytes(), status, explain),
        Err(_) => out_of_memory(rt),
    }
}
