//! The commands over devices in memory, which may fail, and what they leave.

use crate::devices::{Faults, Taker, reader_of, writer_of};
use std::alloc::Global;
use std::process::Abort;
use stm_commands::{KeptSource, RecipeWords, Std, check_to, recipe_to, script_to};

/// What a command left: its status, its output and its standard error.
#[derive(Drop)]
pub struct Left {
    pub status: u8,
    out: Std<Taker>,
    err: Std<Taker>,
}

/// Runs a scenario.
pub fn script(alloc: Global, scenario: &[u8], faults: Faults) -> Left {
    let mut input = Std::new(reader_of(scenario, faults.scenario));
    let mut out = Std::new(writer_of(alloc, faults.out));
    let mut err = Std::new(writer_of(alloc, faults.err));
    let status = script_to(alloc, &mut input, &mut out, &mut err);
    Left { status, out, err }
}

/// Checks a report beside a scenario.
pub fn check(alloc: Global, scenario: &str, report: &str, faults: Faults) -> Left {
    let source = Std::new(reader_of(scenario.as_bytes(), faults.scenario));
    let mut scenario = KeptSource::new(alloc, "s.json", source);
    let source = Std::new(reader_of(report.as_bytes(), faults.report));
    let mut report = KeptSource::new(alloc, "r.txt", source);
    let mut out = Std::new(writer_of(alloc, faults.out));
    let mut err = Std::new(writer_of(alloc, faults.err));
    let status = check_to(alloc, &mut scenario, &mut report, &mut out, &mut err);
    Left { status, out, err }
}

/// Prints the program of a recipe.
pub fn recipe(alloc: Global, words: &RecipeWords<'_>, faults: Faults) -> Left {
    let mut out = Std::new(writer_of(alloc, faults.out));
    let mut err = Std::new(writer_of(alloc, faults.err));
    let status = recipe_to(alloc, words, &mut out, &mut err);
    Left { status, out, err }
}

/// Asserts the status, what was written, and what was said.
pub fn is_left(rt: &impl Abort, left: &Left, of: &str, status: u8, written: &[u8], said: &[u8]) {
    assert_eq!(rt; left.status, status, "{of}");
    assert!(rt; left.out.device.bytes.as_slice() == written, "{of}");
    assert!(rt; left.err.device.bytes.as_slice() == said, "{of}");
}
