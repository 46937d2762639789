//! Devices that fail at each of their calls in turn, under the command `threads`. What is expected comes from the rules, and never from a run.

use crate::devices::{Fault, Faults, NONE, READ_FAULTS, WRITE_FAULTS, front, reader_of, writer_of};
use std::alloc::Global;
use std::io::ErrorKind;
use std::process::Abort;
use std::sync::Wait;
use std::thread::Threads;
use stm_threading::{Std, threads_to};

/// 49 bytes: 50 reads of at most one byte, the last of which finds the end, or 8 of at most seven.
const JOBS: &str = "[[\"start\",\"ReadCommitted\",1,[[\"put\",\"a\",\"1\",0]]]]";

/// 55 bytes: 55 writes of one, or 8 of at most seven.
const PRINTED: &str = "[\"jobs\",1]
[\"committed\",1]
[\"value\",\"a\",\"1\"]
[\"end\",2]
";

/// No scenario of jobs.
const BAD: &str = "[[\"step\",1]]";

/// What is said of it, 34 bytes: 34 writes of one.
const SAID: &str = "stmrun: bad scenario at /0: Shape\n";

/// What is said of a device that failed.
const DEVICE_FAULT: &[u8] = b"stmrun: device fault\n";

/// Which device of the command fails.
#[derive(Clone, Copy)]
enum Failing {
    Input,
    Output,
    /// The standard error of a scenario that is refused.
    Message,
}

/// The status of the command, what is written, and what is said.
type Ending = (u8, &'static [u8], &'static [u8]);

/// How a command ends whose device fails once it has moved this number of pieces, which have this length.
fn broken(failing: Failing, pieces: usize, piece: usize) -> Ending {
    match failing {
        Failing::Input => (3, b"".as_slice(), DEVICE_FAULT),
        Failing::Output => (3, front(PRINTED, pieces, piece), DEVICE_FAULT),
        Failing::Message => (2, b"".as_slice(), front(SAID, pieces, piece)),
    }
}

/// How it ends where the device does not fail.
fn whole(failing: Failing) -> Ending {
    match failing {
        Failing::Input | Failing::Output => (0, PRINTED.as_bytes(), b"".as_slice()),
        Failing::Message => (2, b"".as_slice(), SAID.as_bytes()),
    }
}

/// The scenario of the command whose device has this fault, and how its devices fail.
fn failing_by(failing: Failing, fault: Fault) -> (&'static str, Faults) {
    let (mut scenario, mut faults) = (JOBS, NONE);
    match failing {
        Failing::Input => faults.scenario = fault,
        Failing::Output => faults.out = fault,
        Failing::Message => {
            scenario = BAD;
            faults.err = fault;
        }
    }
    (scenario, faults)
}

/// Asserts that a run by two threads ends so, where the device has this fault.
fn ends<T: Abort + Threads + Wait + Sync>(
    rt: &T,
    alloc: Global,
    failing: Failing,
    fault: Fault,
    ending: Ending,
) {
    let (scenario, faults) = failing_by(failing, fault);
    let mut input = Std::new(reader_of(scenario.as_bytes(), faults.scenario));
    let mut out = Std::new(writer_of(alloc, faults.out));
    let mut err = Std::new(writer_of(alloc, faults.err));
    let ended = threads_to(rt, alloc, &mut input, 2, &mut out, &mut err);
    let (status, written, said) = ending;
    assert_eq!(rt; ended, status);
    assert!(rt; out.device.bytes.as_slice() == written);
    assert!(rt; err.device.bytes.as_slice() == said);
}

/// A device that needs this number of calls, of which each fails in turn, and at last none.
fn each_fails<T: Abort + Threads + Wait + Sync>(
    rt: &T,
    alloc: Global,
    failing: Failing,
    piece: usize,
    calls: usize,
    kind: Option<ErrorKind>,
) {
    for bad_call in 0..calls {
        let fault = Fault {
            piece,
            bad_call,
            kind,
        };
        ends(rt, alloc, failing, fault, broken(failing, bad_call, piece));
    }
    let fault = Fault {
        piece,
        bad_call: calls,
        kind,
    };
    ends(rt, alloc, failing, fault, whole(failing));
}

/// Devices, the length of their pieces, the number of calls, and how these fail.
const DEVICES: [(Failing, usize, usize, &[Option<ErrorKind>]); 5] = [
    (Failing::Input, 1, 50, READ_FAULTS),
    (Failing::Input, 7, 8, READ_FAULTS),
    (Failing::Output, 1, 55, WRITE_FAULTS),
    (Failing::Output, 7, 8, WRITE_FAULTS),
    (Failing::Message, 1, 34, WRITE_FAULTS),
];

#[test]
fn devices_that_fail(rt: HostRuntime) {
    for (failing, piece, calls, kinds) in DEVICES {
        for kind in kinds {
            each_fails(&rt, rt.alloc(), failing, piece, calls, *kind);
        }
    }
}
