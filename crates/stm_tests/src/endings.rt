//! Where no terminal shows how far a search is, it is said each ten seconds.

use std::alloc::Global;
use std::cell::Cell;
use std::io;
use std::time::{Clock, Duration};
use stm_exploring::{Observer, ProgressNotes};

/// A clock that is four seconds further each time that it is read.
#[derive(Drop)]
struct Ticking {
    seconds: Cell<u64>,
}

impl Clock for Ticking {
    fn monotonic(&self) -> io::Result<Duration> {
        let seconds = self.seconds.get().saturating_add(4);
        self.seconds.set(seconds);
        Ok(Duration::from_secs(seconds))
    }

    fn since_1970(&self) -> io::Result<Duration> {
        Ok(Duration::from_secs(0))
    }
}

/// What is said of a search that is observed so many times, each time after four seconds, and ends with seven of 100 moves left.
fn notes(alloc: Global, times: u64) -> Vec<u8> {
    let clock = Ticking {
        seconds: Cell::new(0),
    };
    let mut notes = ProgressNotes::new(Vec::new(alloc), &clock, 100);
    for length in 0..times {
        notes.passed(length, 90);
    }
    notes.ended();
    notes.close(7);
    notes.out
}

/// After 12, 20 and 32 seconds a line is due, and after that at the end.
const NOTES: &str = "stmrun: schedules of up to 2 moves done, 10 of 100 moves made, 12 seconds
stmrun: schedules of up to 4 moves done, 10 of 100 moves made, 20 seconds
stmrun: schedules of up to 7 moves done, 10 of 100 moves made, 32 seconds
stmrun: ended: schedules of up to 8 moves done, 93 of 100 moves made, 40 seconds
";

#[test]
fn a_search_says_each_ten_seconds_how_far_it_is(rt: HostRuntime) {
    assert_eq!(rt; notes(rt.alloc(), 2).as_slice(), b"".as_slice());
    assert_eq!(rt; notes(rt.alloc(), 9).as_slice(), NOTES.as_bytes());
}
