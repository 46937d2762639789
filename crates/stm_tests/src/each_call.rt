//! Devices that fail at each of their calls in turn, under the commands `script`, `check` and `recipe`. What is expected comes from the
//! rules, and never from a run.

use crate::commands::{Left, check, is_left, recipe, script};
use crate::devices::{Fault, Faults, NONE, READ_FAULTS, WRITE_FAULTS, front};
use std::alloc::Global;
use std::io::ErrorKind;
use std::process::Abort;
use stm_commands::RecipeWords;

/// 60 bytes: 61 reads of at most one byte, the last of which finds the end, or 10 of at most seven.
const SCENARIO: &str = "[[\"start\",\"ReadCommitted\",1,[[\"put\",\"a\",\"1\",0]]],[\"step\",1]]";

/// 83 bytes: 83 writes of one, or 12 of at most seven, and one read more.
const REPORT: &str = "[1,\"started\",1]
[2,\"committed\",1,2,1,[],[],[]]
[\"key\",\"a\",\"1\",2,2,1,0]
[\"end\",2,1]
";

/// No scenario, whichever command reads it.
const BAD: &str = "[[\"step\",-1]]";

/// What is said of it: 36 bytes.
const SAID: &str = "stmrun: bad scenario at /0/1: Range\n";

/// What `release` prints, 78 bytes: 16 writes of at most five.
const RELEASE: &str = concat!(
    r#"[["if",["eq",["get","a\"\n"],"é"],[["del","a\"\n"]],[["abort","not held"]]]]"#,
    "\n",
);

/// How the usage of `dequeue` begins: 48 bytes.
const USAGE: &str = "error: dequeue takes QUEUE\n\nUsage: stmrun recipe";

/// Which device of a command fails.
#[derive(Clone, Copy)]
enum Failing {
    ScriptInput,
    ScriptOutput,
    /// The standard error of a script that is refused.
    ScriptMessage,
    CheckScenario,
    CheckReport,
    CheckOutput,
    /// The standard error of a check that is refused.
    CheckMessage,
    RecipeOutput,
    /// The standard error of words that spell no recipe.
    RecipeMessage,
}

/// Prints the program that releases a slot, of texts with a quote, a line feed and a letter beyond ASCII.
fn release(alloc: Global, faults: Faults) -> Left {
    let words = RecipeWords {
        name: "release_slot",
        first: Some("a\"\n"),
        second: Some("é"),
        third: None,
    };
    recipe(alloc, &words, faults)
}

/// Words that spell no recipe, since a queue is missing.
fn dequeue(alloc: Global, faults: Faults) -> Left {
    let words = RecipeWords {
        name: "dequeue",
        first: None,
        second: None,
        third: None,
    };
    recipe(alloc, &words, faults)
}

/// The faults of a command whose one device has this fault.
fn faults_of(failing: Failing, fault: Fault) -> Faults {
    match failing {
        Failing::ScriptInput | Failing::CheckScenario => Faults {
            scenario: fault,
            ..NONE
        },
        Failing::CheckReport => Faults {
            report: fault,
            ..NONE
        },
        Failing::ScriptOutput | Failing::CheckOutput | Failing::RecipeOutput => {
            Faults { out: fault, ..NONE }
        }
        Failing::ScriptMessage | Failing::CheckMessage | Failing::RecipeMessage => {
            Faults { err: fault, ..NONE }
        }
    }
}

/// Runs the command.
fn run(alloc: Global, failing: Failing, fault: Fault) -> Left {
    let faults = faults_of(failing, fault);
    match failing {
        Failing::ScriptInput | Failing::ScriptOutput => {
            script(alloc, SCENARIO.as_bytes(), faults)
        }
        Failing::ScriptMessage => script(alloc, BAD.as_bytes(), faults),
        Failing::CheckScenario | Failing::CheckReport | Failing::CheckOutput => {
            check(alloc, SCENARIO, REPORT, faults)
        }
        Failing::CheckMessage => check(alloc, BAD, REPORT, faults),
        Failing::RecipeOutput => release(alloc, faults),
        Failing::RecipeMessage => dequeue(alloc, faults),
    }
}

/// Asserts the status of the command, what was written, and what was said.
fn ends(
    rt: &impl Abort,
    alloc: Global,
    failing: Failing,
    fault: Fault,
    status: u8,
    written: &[u8],
    said: &[u8],
) {
    let left = run(alloc, failing, fault);
    is_left(rt, &left, "a device fails", status, written, said);
}

/// A device that needs this number of calls, of which each fails in turn, and at last none. Until then the front of a text is written, piece
/// by piece; without a fault it is another one.
fn each_breaks(
    rt: &impl Abort,
    alloc: Global,
    failing: Failing,
    piece: usize,
    calls: usize,
    kind: Option<ErrorKind>,
    begun: &str,
    whole: &str,
) {
    for bad_call in 0..calls {
        let fault = Fault {
            piece,
            bad_call,
            kind,
        };
        let written = front(begun, bad_call, piece);
        ends(
            rt,
            alloc,
            failing,
            fault,
            3,
            written,
            b"stmrun: device fault\n".as_slice(),
        );
    }
    let fault = Fault {
        piece,
        bad_call: calls,
        kind,
    };
    ends(
        rt,
        alloc,
        failing,
        fault,
        0,
        whole.as_bytes(),
        b"".as_slice(),
    );
}

/// A standard error of which each of its calls fails in turn, one a byte: the status stays.
fn each_refuses(
    rt: &impl Abort,
    alloc: Global,
    failing: Failing,
    calls: usize,
    kind: Option<ErrorKind>,
    said: &str,
) {
    for bad_call in 0..calls {
        let fault = Fault {
            piece: 1,
            bad_call,
            kind,
        };
        let said = front(said, bad_call, 1);
        ends(rt, alloc, failing, fault, 2, b"".as_slice(), said);
    }
}

/// Readers, the length of their pieces, the number of calls, and what is written without a fault. Before, nothing is.
const READERS: [(Failing, usize, usize, &str); 6] = [
    (Failing::ScriptInput, 1, 61, REPORT),
    (Failing::ScriptInput, 7, 10, REPORT),
    (Failing::CheckScenario, 1, 61, "yes\n"),
    (Failing::CheckScenario, 7, 10, "yes\n"),
    (Failing::CheckReport, 1, 84, "yes\n"),
    (Failing::CheckReport, 7, 13, "yes\n"),
];

/// Writers, the length of their pieces, the number of calls, and what is written to them.
const WRITERS: [(Failing, usize, usize, &str); 5] = [
    (Failing::ScriptOutput, 1, 83, REPORT),
    (Failing::ScriptOutput, 7, 12, REPORT),
    (Failing::CheckOutput, 1, 4, "yes\n"),
    (Failing::CheckOutput, 7, 1, "yes\n"),
    (Failing::RecipeOutput, 5, 16, RELEASE),
];

/// Standard errors, and the number of calls for what is said.
const MESSAGES: [(Failing, usize, &str); 3] = [
    (Failing::ScriptMessage, 37, SAID),
    (Failing::CheckMessage, 37, SAID),
    (Failing::RecipeMessage, 48, USAGE),
];

#[test]
fn readers_that_fail(rt: HostRuntime) {
    for (failing, piece, calls, whole) in READERS {
        for kind in READ_FAULTS {
            each_breaks(&rt, rt.alloc(), failing, piece, calls, *kind, "", whole);
        }
    }
}

#[test]
fn writers_that_fail(rt: HostRuntime) {
    for (failing, piece, calls, whole) in WRITERS {
        for kind in WRITE_FAULTS {
            each_breaks(&rt, rt.alloc(), failing, piece, calls, *kind, whole, whole);
        }
    }
}

#[test]
fn messages_that_fail(rt: HostRuntime) {
    for (failing, calls, said) in MESSAGES {
        for kind in WRITE_FAULTS {
            each_refuses(&rt, rt.alloc(), failing, calls, *kind, said);
        }
    }
}
