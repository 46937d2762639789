//! A source while it is read.
use stm_events::WorldEvent;
use stm_history::{Sequence, Text};
use stm_program::{Level, Program};
use stm_terms::Names;
use stm_texts::Opening;

/// How much all programs of a source may take together, and all events of the store: a scenario in JSON has at most so many bytes.
pub(crate) const MOST_BULK: usize = 16777216;

/// A program that is asked of states: at every place of every schedule, or, a final, where nothing is left to do.
#[derive(Debug, Drop)]
pub struct Rule {
    /// Its name.
    pub name: Text,
    /// Whether it is a final.
    pub is_final: bool,
    /// The weakest level at which it is to be kept, where that was said.
    pub level: Option<Level>,
    /// The program. What it asks for is broken where it aborts or faults.
    pub program: Program,
}

/// That a runner begins behind the end of another one.
#[derive(Clone, Copy, Debug, PartialEq, Eq)]
pub struct Wait {
    /// The number of the runner that waits.
    pub runner: u64,
    /// The number of the runner that ends before.
    pub ended: u64,
    /// Whether that one has to commit: else the runner takes no step at all.
    pub committed: bool,
}

/// A source while it is read.
#[derive(Drop)]
pub(crate) struct Story {
    /// What the store opens with, where that was said.
    pub opening: Option<Opening>,
    /// Whether an event was read.
    pub has_events: bool,
    /// The events so far.
    pub events: Sequence<WorldEvent>,
    /// How many runners have a number.
    pub runners: u64,
    /// The names of runners.
    pub names: Names,
    /// The number of the runner of each name. A start that may not send a commit has none.
    pub numbers: Sequence<Option<u64>>,
    /// Which runners begin behind the end of others.
    pub waits: Sequence<Wait>,
    /// The rules and finals so far.
    pub rules: Sequence<Rule>,
    /// How much more its programs may take.
    pub room: usize,
    /// How much more its events of the store may take.
    pub event_room: usize,
}
