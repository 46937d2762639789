//! Sources: scenarios as people write them, and how they are read.
//!
//! `specs/Sources.antt` says what bytes spell, or which fault comes first; it stands on `Statements.antt`, `Programs.antt`, `Definitions.antt`,
//! `Rules.antt`, `Txns.antt` and `Events.antt`, each of which says what is read of tokens, and these on the values and conditions of `stm_terms`.
#![tactic(auto)]

mod arguments;
mod bulk;
mod constants;
mod definitions;
mod events;
mod kept;
mod leaving;
mod loops;
mod openings;
mod places;
mod programs;
mod room;
mod rules;
mod runners;
mod simple;
mod sources;
mod starts;
mod statements;
mod steps;
mod story;
mod txns;
mod wanted;
mod words;

pub use places::{MarkedProgram, MarkedPrograms, MarkedRule, MarkedStart, read_marked_programs};
pub use sources::{Source, read_source, read_whole_source};
pub use stm_terms::{BadSource, Kind, MOST_BRACKETS, Names, SourceCause, SourceError};
pub use stm_texts::Scenario;
pub use story::{Rule, Wait};
pub use wanted::kinds_wanted;
