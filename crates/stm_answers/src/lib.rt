//! What a search, jobs and a store print, in words for people.
//!
//! The lines are those of the commands `explore`, `threads` and `store` (docs/FORMATS.md). Nothing is promised of the words, which may change.
#![tactic(auto)]

mod jobs;
mod late_steps;
mod outcomes;
mod parts;
mod races;
mod rules;
mod stored;
mod words;

pub use jobs::job_line_in_words;
pub use late_steps::late_steps_in_words;
pub use races::{schedule_in_words, waits_broken};
pub use stm_compiling::NamedRunner;
pub use stored::store_line_in_words;
pub use words::{Asked, in_words};
