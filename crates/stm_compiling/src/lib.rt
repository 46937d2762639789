//! The command `compile`: from a source, a scenario as people write it, to the line of JSON of its scenario, of a rule or of one of its programs, to what
//! JSON has no place for, and to what is said of a source that is bad.
//!
//! `specs/Wholes.antt` says what a source comes to, `specs/Programs.antt` which line a rule has, and a program with its arguments, `specs/Notes.antt` what
//! is said of what a scenario has no place for, and `specs/Command.antt` what the command does to its devices.
#![tactic(auto)]

mod calls;
mod command;
mod compares;
mod elses;
mod explaining;
mod fault;
mod forms;
mod habits;
mod items;
mod kept;
mod labels;
mod line;
mod misfits;
mod more_faults;
mod naming;
mod notes;
mod open_braces;
mod other_kinds;
mod part;
mod placing;
mod program;
mod refusing;
mod runners;
mod second_uses;
mod signs;
mod spans;
mod spots;
mod titles;
mod wanted;
mod whole;

pub use command::{compile_to, compiled, compiled_part};
pub use kept::{kept_text, spells};
pub use labels::{CalledRunner, called_runners};
pub use notes::notes_of;
pub use part::{Part, Printed};
pub use placing::{
    PlacedLine, SourcePlaces, indices_in, placed_program, placed_rule, placed_runner,
};
pub use refusing::{Refused, refused_in};
pub use runners::{NamedRunner, name_of_runner, named_runners, runners_named};
pub use spans::{event_lines, events_without_jobs, line_of_event, line_of_rule};
pub use stm_devices::{Sink, Source};
pub use stm_source::{Names, Rule, Wait};
pub use titles::unknown_in;
pub use wanted::EVENTS;
pub use whole::{Beside, Compiled};
